//! The files of a store, by number.
ghost use Rattle.std.specs.Prelude.{◌≡◌, ◌≤◌};
ghost use Rattle.step_code.specs.Spent.{last_given};
ghost use Rattle.store_image.specs.Files.{out_file, generation_file};

/// The file of an output's lines.
pub fn out_file(k: usize) -> u64
    requires { k ≤ last_given }
    ensures { result ≡ out_file k }
{
    16 + 2 * k as u64
}

/// The file of a generation: a state, and the steps behind it.
pub fn generation_file(generation: u64) -> u64
    requires { generation ≤ last_given }
    ensures { result ≡ generation_file generation }
{
    17 + 2 * generation
}
