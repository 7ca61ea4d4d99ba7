//! Laws of paths and of files. Each is a clause of a function that does nothing.
ghost use Rattle.std.specs.Prelude.{◌≡◌, ◌↔◌, ℕ, List, true, option_and_then, Some};
ghost use Rattle.base_types.specs.Lists.{IsIn};
ghost use Rattle.event_model.specs.Trees.{tree_in};
ghost use Rattle.runtime_text.specs.Named.{file_of, named_files};
ghost use Rattle.runtime_text.specs.Reaches.{reaches, Reaches};
ghost use Rattle.runtime_text.specs.Runtime.{object_of, runtime_in, Entry, Runtime as AnyRuntime};

/// A bot is reached exactly where the test says so.
pub fn reaching_is_tested()
    ensures { (bots : List Entry) (from to : Entry) → (reaches bots from to ≡ true) ↔ Reaches bots to from }
{}

/// Each file that a bot of a runtime text is given is among those that the text names.
pub fn files_are_named()
    ensures { (text : List ℕ) (runtime : AnyRuntime) → option_and_then runtime_in (option_and_then object_of (tree_in text)) ≡ Some runtime
        → (bot : Entry) → IsIn bot runtime.bots → (file : List ℕ) → file_of runtime.global bot ≡ Some file → IsIn file (named_files text) }
{}
