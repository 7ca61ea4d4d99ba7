//! Pipelines and their feeds.

/// Files of the shelf; the first is the bundle's.
pub type Files = &'static [(&'static str, &'static str)];

/// Two feeds in pieces of at most two lines, a parser for each, and one output: 9 events of each feed.
pub const TWO_FEEDS: Files = &[
    (
        "bundle.json",
        r#"{"collect-a":{"module":"collector.file","parameters":{"file":"a.csv","name":"A","chunk_size":32},"destination_queues":{"_default":["parse-a-queue"]}},"parse-a":{"module":"parser.csv","parameters":{"columns":["source.ip","source.port"]},"destination_queues":{"_default":["write-queue"]}},"collect-b":{"module":"collector.file","parameters":{"file":"b.csv","name":"B","chunk_size":32},"destination_queues":{"_default":["parse-b-queue"]}},"parse-b":{"module":"parser.csv","parameters":{"columns":["source.ip","source.port"]},"destination_queues":{"_default":["write-queue"]}},"write":{"module":"output.file"}}"#,
    ),
    (
        "a.csv",
        "192.0.2.1,80\n192.0.2.2,80\n192.0.2.3,80\n192.0.2.4,80\n192.0.2.5,80\n192.0.2.6,80\n192.0.2.7,80\n192.0.2.8,80\n192.0.2.9,80\n",
    ),
    (
        "b.csv",
        "198.51.100.1,22\n198.51.100.2,22\n198.51.100.3,22\n198.51.100.4,22\n198.51.100.5,22\n198.51.100.6,22\n198.51.100.7,22\n198.51.100.8,22\n198.51.100.9,22\n",
    ),
];

/// One feed with its header in each report: four good lines, and one with a bad address. The other bundle lacks the parser.
pub const ONE_BAD_LINE: Files = &[
    (
        "bundle.json",
        r#"{"collect":{"module":"collector.file","parameters":{"file":"feed.csv","name":"Demo","chunk_replicate_header":true},"destination_queues":{"_default":["parse-queue"]}},"parse":{"module":"parser.csv","parameters":{"columns":["source.ip","source.port","classification.type","extra.note"],"skip_header":true},"destination_queues":{"_default":["write-queue"]}},"write":{"module":"output.file"}}"#,
    ),
    (
        "less.json",
        r#"{"collect":{"module":"collector.file","parameters":{"file":"feed.csv","name":"Demo","chunk_replicate_header":true},"destination_queues":{"_default":["write-queue"]}},"write":{"module":"output.file"}}"#,
    ),
    (
        "feed.csv",
        "ip,port,type,note\n192.0.2.1,80,scanner,\"a, b\"\n192.0.2.300,22,scanner,x\n192.0.2.2,25,spam,\n192.0.2.3,443,scanner,y\n192.0.2.4,22,brute-force,z\n",
    ),
];
