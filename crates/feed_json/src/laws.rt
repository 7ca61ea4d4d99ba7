ghost use Rattle.feed_json.specs.Laws.{NoItemIsLost, NoLineIsLost};

/// The events, the bad parts and the empty lines of a report are all its lines, in order.
pub fn no_line_is_lost()
    ensures { NoLineIsLost }
{}

/// The events and the bad parts of an array are as many as its items.
pub fn no_item_is_lost()
    ensures { NoItemIsLost }
{}
