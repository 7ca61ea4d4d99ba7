//! Laws of parameters, of sieves, of files and of plans. Each is a clause of a function that does nothing.
ghost use Rattle.std.specs.Prelude.{◌≡◌, ◌≤◌, ◌↔◌, ℕ, List, Ok, Err, Some, Result as AnyResult};
ghost use Rattle.serde_json.specs.Data.{Data};
ghost use Rattle.config_bundle.specs.declared.bundle.Bundle.{Bundle as AnyBundle};
ghost use Rattle.sieve_reader.specs.Answer.{IsGivenBy};
ghost use Rattle.sieve_tree.specs.SieveView.{SieveView};
ghost use Rattle.sieve_reader.specs.declared.sieve.SieveFault.{SieveFault as AnyFault};
ghost use Rattle.runtime_config.specs.Faults.{HasFiles};
ghost use Rattle.runtime_config.specs.Load.{load};
ghost use Rattle.runtime_text.specs.Named.{named_files};
ghost use Rattle.runtime_config.specs.declared.fault.LoadFault.TheVariants as fault;
ghost use Rattle.module_settings.specs.Parameters.{taken_as};
ghost use Rattle.runtime_config.specs.SieveIn.{sieve_in};
ghost use Rattle.runtime_config.specs.Within.{AreWithin};
ghost use Rattle.module_settings.specs.declared.form.Form.TheVariants as form;
ghost use Rattle.runtime_config.specs.declared.plan.Plan.{Plan as AnyPlan};
ghost use Rattle.module_settings.specs.declared.setting.Setting.TheVariants as setting;

/// What is taken as a number is one from the least to the most.
pub fn numbers_are_within()
    ensures { (least most n : ℕ) (d : Data) → taken_as (form.Number least most) d ≡ Some (setting.Whole n) → (least ≤ n) × (n ≤ most) }
{}

/// What a text gives as a sieve is the sieve that it writes, or the first thing that is wrong with it.
pub fn sieves_are_given()
    ensures { (text : List ℕ) (given : AnyResult SieveView AnyFault) → (sieve_in text ≡ given) ↔ IsGivenBy text given }
{}

/// A bundle with each file that its runtime text names hasn't the fault that a file is absent.
pub fn named_files_suffice()
    ensures { (bundle : AnyBundle) → HasFiles bundle (named_files bundle.runtime) → (bot : List ℕ) → load bundle ≡ Err (fault.File bot) → ⊥ }
{}

/// The bots of a plan are in byte order of their names, and their numbers are within their limits.
pub fn plans_are_within()
    ensures { (bundle : AnyBundle) (plan : AnyPlan) → load bundle ≡ Ok plan → AreWithin plan.bots }
{}
