// What nodes cost the spans under prices.
use crate::lists::{at, between};
use crate::market::{Market, Span};
use crate::places::Place;
use std::alloc::AllocError;

// Adds the sums of the first prices of a partition: of none, of one, and so on up to all.
fn add_sums(prices: &[u64], sums: &mut Vec<u64>) -> Result<(), AllocError> {
    let mut sum: u64 = 0;
    sums.push(sum)?;
    for price in prices {
        sum = sum.saturating_add(*price);
        sums.push(sum)?;
    }
    Ok(())
}

/// The sums of the first prices, partition by partition.
pub fn sum_up(market: &Market, prices: &[u64], sums: &mut Vec<u64>) -> Result<(), AllocError> {
    sums.clear();
    for part in 0..market.parts {
        let from = part.saturating_mul(market.window);
        let to = from.saturating_add(market.window);
        add_sums(between(prices, from, to), sums)?;
    }
    Ok(())
}

// What a node of a partition costs in a span.
#[inline]
fn cost_of(span: &Span, window: usize, part: usize, sums: &[u64]) -> u64 {
    let base = part.saturating_mul(window.saturating_add(1));
    let until = at(sums, base.saturating_add(span.to));
    until.saturating_sub(at(sums, base.saturating_add(span.from)))
}

// Puts the places of a span in order of cost.
fn order_places(span: &Span, window: usize, sums: &[u64], places: &mut [Place]) {
    for place in places.iter_mut() {
        place.cost = cost_of(span, window, place.part, sums);
    }
    if places.len() > 1 {
        places.sort_unstable_by_key(|place| (place.cost, place.part));
    }
}

/// Puts the places of each span in order of cost.
pub fn price_places(market: &Market, sums: &[u64], places: &mut Vec<Place>) {
    for span in &market.spans {
        if span.first <= span.end && span.end <= places.len() {
            order_places(span, market.window, sums, &mut places[span.first..span.end]);
        }
    }
}
