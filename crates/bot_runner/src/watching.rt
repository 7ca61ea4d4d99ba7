//! Whether control has grown.
ghost use Rattle.collector_feeds.specs.Open.{GoesOn};

use edge_traits::Source;

// Whether control has more than so many bytes, or can't be read. It is watched if a number is given.
pub(crate) fn has_grown<K: Source>(control: &mut K, than: Option<u64>) -> bool
    ensures { GoesOn (K.source control.old) (K.source control.new) }
{
    let Some(than) = than else {
        return false;
    };
    let mut byte = [0; 1];
    !matches!(control.read_at(than, &mut byte), Ok(0))
}
