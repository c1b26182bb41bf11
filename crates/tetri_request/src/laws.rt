// Laws of asks.
ghost use Rattle.tetri_request.specs.Cycles.{EarnsNothingExpired, HasOneLeafByNumber, KeepsThrift, OffersUntilExpired};
ghost use Rattle.tetri_request.specs.Options.{IsSoundAsk};

use crate::ask::Ask;

/// In all offers of an ask that arrived then, whatever their cycles, a number names the same leaf.
pub fn numbers_name_leaves(ask: &Ask, arrival: u32)
    ensures { HasOneLeafByNumber ask.now arrival }
{}

/// An ask that has not expired has an offer in each window, with a leaf that starts now and is worth
/// something.
pub fn unexpired_asks_have_offers(ask: &Ask, arrival: u32)
    requires { IsSoundAsk ask.now }
    ensures { OffersUntilExpired ask.now arrival }
{}

/// All leaves of an offer of an ask that has expired are worth nothing.
pub fn expired_asks_earn_nothing(ask: &Ask, arrival: u32)
    ensures { EarnsNothingExpired ask.now arrival }
{}

/// Grants that are thrifty for one offer of an ask are thrifty for another, where each of its leaves that
/// they hold is one of the first offer's.
pub fn thrift_keeps_over_cycles(ask: &Ask, arrival: u32)
    requires { IsSoundAsk ask.now }
    ensures { KeepsThrift ask.now arrival }
{}
