ghost use Rattle.std.specs.Prelude.{◌≡◌, ℕ, List};
ghost use Rattle.disk_journal.specs.declared.header.Heading.{Heading};
ghost use Rattle.disk_journal.specs.GateFile.{HasBodies, IsDamagedAt};

/// A file stands for one list of bodies.
pub fn bodies_are_one()
    ensures { (heading : Heading) (a b : List (List ℕ)) (file : List ℕ) → HasBodies heading a file → HasBodies heading b file → a ≡ b }
{}

/// A file that is damaged stands for no list of bodies.
pub fn damaged_has_no_bodies()
    ensures { (heading : Heading) (at : ℕ) (bodies : List (List ℕ)) (file : List ℕ) → IsDamagedAt heading file at → HasBodies heading bodies file → ⊥ }
{}

/// A file is damaged at one place.
pub fn damage_is_at_one_place()
    ensures { (heading : Heading) (at other : ℕ) (file : List ℕ) → IsDamagedAt heading file at → IsDamagedAt heading file other → at ≡ other }
{}

/// A file stands for a list of bodies or is damaged: none does neither.
pub fn a_file_has_bodies_or_damage()
    ensures { (heading : Heading) (file : List ℕ) → ((bodies : List (List ℕ)) → HasBodies heading bodies file → ⊥) → ((at : ℕ) → IsDamagedAt heading file at → ⊥) → ⊥ }
{}
