ghost use Rattle.std.specs.Prelude.{◌≡◌, IfOk};
ghost use Rattle.feed_maker.specs.Drill.{drill_bundle};

use base_types::{Blob, NamedList, OutOfMemory};
use config_bundle::Bundle;
use std::alloc::Global;

const RUNTIME: &str =
    r#"{"collect":{"module":"collector.file","parameters":{"file":"feed.csv","name":"drill","chunk_replicate_header":true},"destination_queues":{"_default":["parse-queue"]}},"parse":{"module":"parser.csv","parameters":{"columns":["source.ip","source.port","classification.type","extra.note"],"skip_header":true},"destination_queues":{"_default":["tag-queue"]}},"tag":{"module":"expert.taxonomy","destination_queues":{"_default":["write-queue"]}},"write":{"module":"output.file"}}"#;

/// The drill's bundle: a collector of CSV, its parser, a bot that sets the taxonomy, and an output. It names no files.
pub fn drill_bundle(alloc: Global) -> Result<Bundle, OutOfMemory>
    ensures { IfOk result (λ bundle. bundle ≡ drill_bundle) }
{
    Ok(Bundle {
        runtime: Blob::new(alloc, RUNTIME.as_bytes())?,
        files: NamedList::new(alloc),
    })
}
