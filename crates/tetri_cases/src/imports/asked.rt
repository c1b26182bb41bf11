// What a section asks for.
use tetri_logs::{Options, Worth};
use tetri_request::Class;

/// What is asked for where nothing is said.
const PLAIN: Options = Options {
    slot: 300,
    processors: None,
    nodes: None,
    window: 16,
    budget: 200,
    unit: 1,
    from: None,
    to: None,
    jobs: None,
    worth: Worth::NodeSlots,
    slack: 288,
    class: Class::Steady,
    whole_nodes_only: false,
};

// With one word more, as `slot=60`.
fn with_word(options: Options, word: &str) -> Options {
    let (key, value) = word.split_once('=').unwrap_or((word, ""));
    let number = value.parse::<u32>().unwrap_or(0);
    let mut options = options;
    match key {
        "slot" => options.slot = number,
        "processors" => options.processors = Some(number),
        "nodes" => options.nodes = Some(number),
        "window" => options.window = number,
        "budget" => options.budget = number,
        "unit" => options.unit = number,
        "from" => options.from = Some(number),
        "to" => options.to = Some(number),
        "jobs" => options.jobs = Some(number),
        "slack" => options.slack = number,
        "worth" => options.worth = Worth::Job,
        "whole-nodes-only" => options.whole_nodes_only = true,
        "node" | "partition" => {}
        _ => options.class = Class::Decay,
    }
    options
}

/// What words ask for.
pub fn options_of(words: &str) -> Options {
    let mut options = PLAIN;
    for word in words.split_whitespace() {
        options = with_word(options, word);
    }
    options
}
