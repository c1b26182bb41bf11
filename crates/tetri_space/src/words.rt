// What is said of an allotment that is not lawful.
ghost use Rattle.std.specs.Prelude.{◌≡◌, ◌++◌, OnOk, string_bytes};
ghost use Rattle.tetri_space.specs.Words.{rule_name, rule_values, unlawful_words};

use crate::rules::{Rule, Unlawful};
use std::alloc::AllocError;
use std::fmt::Write;

impl Rule {
    fn name(self) -> &'static str
        ensures { result.now ≡ rule_name self }
    {
        match self {
            Rule::NotPending => "not-pending",
            Rule::NotLive => "not-live",
            Rule::Doubled(_) => "doubled",
            Rule::BadNodes => "bad-nodes",
            Rule::TooMany => "too-many",
            Rule::Outside(_) => "outside",
            Rule::NotFree(_) => "not-free",
            Rule::Clash(..) => "clash",
        }
    }

    // Adds what shows that it is broken, each value after a space.
    fn add_values(self, out: &mut String) -> Result<(), AllocError>
        ensures { OnOk result (string_bytes out.new ≡ string_bytes out.old ++ rule_values self) }
    {
        match self {
            Rule::Doubled(earlier) => write!(out, " {earlier}"),
            Rule::Outside(node) | Rule::NotFree(node) => write!(out, " {node}"),
            Rule::Clash(earlier, node) => write!(out, " {earlier} {node}"),
            _ => Ok(()),
        }
    }
}

impl Unlawful {
    /// Adds the grant's place and the rule in words, with what shows that it is broken. Its only
    /// error is want of memory.
    #[tactic(auto, unfolding(crate::specs::Words::unlawful_words))]
    pub fn print_onto(self, out: &mut String) -> Result<(), AllocError>
        ensures { OnOk result (string_bytes out.new ≡ string_bytes out.old ++ unlawful_words self) }
    {
        write!(out, "{} {}", self.grant, self.rule.name())?;
        self.rule.add_values(out)
    }
}
