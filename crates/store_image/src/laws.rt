ghost use Rattle.std.specs.Prelude.{◌≡◌, List, true, ℕ};
ghost use Rattle.edge_traits.specs.Disk.{Image};
ghost use Rattle.step_code.specs.Rules.{Meaning};
ghost use Rattle.store_image.specs.Damage.{IsDamagedStore};
ghost use Rattle.store_image.specs.History.{HasHistory};
ghost use Rattle.store_image.specs.Opens.{Opens};
ghost use Rattle.store_image.specs.Stands.{origin_of, Stands};
ghost use Rattle.store_image.specs.Stored.{IsStored};

use step_code::{Base, Step};

/// The files of a store hold one generation, one state, and one list of steps, in one format.
pub fn what_is_stored_is_one()
    ensures { (image : Image) (g h : ℕ) (a b : Base) (s t : List Step) (one : IsStored image g a s) (other : IsStored image h b t)
        → (g ≡ h) × (a ≡ b) × (s ≡ t) × (one.holds.format ≡ other.holds.format) }
{}

/// Where all generations of a store are looked at, its files hold the history that they stand for.
pub fn what_stands_whole_is_held()
    ensures { (m : Meaning) (first : Base) (image : Image) (history : List Step) → Stands m (origin_of first true) image history → HasHistory image history }
{}

/// All generations of a store hold one history.
pub fn what_is_held_is_one()
    ensures { (image : Image) (a b : List Step) → HasHistory image a → HasHistory image b → a ≡ b }
{}

/// What opens isn't damaged anywhere.
pub fn what_opens_is_whole()
    ensures { (m : Meaning) (image : Image) (generation : ℕ) (base : Base) (steps : List Step) (file at : ℕ) → Opens m image generation base steps → IsDamagedStore m image file at → ⊥ }
{}

/// A store is damaged at one place of one file.
pub fn a_store_is_damaged_at_one_place()
    ensures { (m : Meaning) (image : Image) (file at other place : ℕ) → IsDamagedStore m image file at → IsDamagedStore m image other place → (file ≡ other) × (at ≡ place) }
{}

/// A store opens or is damaged: no image does neither. An empty root is damaged at its front.
pub fn a_store_opens_or_is_damaged()
    ensures { (m : Meaning) (image : Image) → ((generation : ℕ) (base : Base) (steps : List Step) → Opens m image generation base steps → ⊥) → ((file at : ℕ) → IsDamagedStore m image file at → ⊥) → ⊥ }
{}
