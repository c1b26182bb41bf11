// What an expression gains and costs, from its parts.
ghost use Rattle.std.specs.Prelude.{◌≡◌, ◌+◌, ◌-◌, ◌*◌, ◌<◌, ◌≤◌, ◌^◌, length, min, nat_le, if◌then◌else◌};
ghost use Rattle.tetri_prices.specs.steps.Values.{costs, gains, tops, IsJoined};
ghost use Rattle.tetri_strl.specs.Tree.{added, greatest, least};
ghost use Rattle.tetri_strl.specs.Worth.{added_of, greatest_of};

/// The Lagrangian value of an expression.
#[derive(Clone, Copy, Debug)]
pub struct Value {
    /// Its greatest worth.
    pub top: u64,
    /// What it gains above the prices of its nodes at most.
    pub gain: u128,
    /// What its nodes cost at least where it is worth more than 0.
    pub cost: u128,
}

// The value of a `max`.
pub fn greatest(values: &[Value]) -> Value
    requires some { 1 ≤ length values.now }
    requires cost { added_of (costs values.now) ≤ 2 ^ 96 }
    ensures { IsJoined greatest values.now result }
{
    let mut joined = Value {
        top: 0,
        gain: 0,
        cost: u128::MAX,
    };
    for value in values {
        joined = Value {
            top: joined.top.max(value.top),
            gain: joined.gain.max(value.gain),
            cost: joined.cost.min(value.cost),
        };
    }
    joined
}

// The value of a `min`, whose parts are each paid for.
pub fn lowest(values: &[Value]) -> Value
    requires some { 1 ≤ length values.now }
    requires top { greatest_of (tops values.now) < 2 ^ 64 }
    requires gain { greatest_of (gains values.now) ≤ 2 ^ 80 }
    requires cost { added_of (costs values.now) ≤ 2 ^ 96 }
    ensures { IsJoined least values.now result }
{
    let mut top = u64::MAX;
    let mut gross = u128::MAX;
    let mut cost: u128 = 0;
    for value in values {
        top = top.min(value.top);
        gross = gross.min(value.gain + value.cost);
        cost += value.cost;
    }
    Value {
        top,
        gain: gross.saturating_sub(cost),
        cost,
    }
}

// The value of a sum.
pub fn added(values: &[Value]) -> Value
    requires some { 1 ≤ length values.now }
    requires top { added_of (tops values.now) < 2 ^ 64 }
    requires gain { added_of (gains values.now) ≤ 2 ^ 80 }
    requires cost { added_of (costs values.now) ≤ 2 ^ 96 }
    ensures { IsJoined added values.now result }
{
    let mut joined = Value {
        top: 0,
        gain: 0,
        cost: u128::MAX,
    };
    for value in values {
        joined = Value {
            top: joined.top + value.top,
            gain: joined.gain + value.gain,
            cost: joined.cost.min(value.cost),
        };
    }
    joined
}

// The value with a worth that it has to reach, which counts so many times.
pub fn barred(value: Value, least: u64, times: u128) -> Value
    requires { times * least < 2 ^ 128 }
    ensures top { result.top ≡ (if nat_le least value.top then least else 0) }
    ensures gain { result.gain ≡ (if nat_le least value.top
        then min (times * least - value.cost) value.gain else 0) }
    ensures cost { result.cost ≡ value.cost }
{
    if value.top < least {
        return Value {
            top: 0,
            gain: 0,
            cost: value.cost,
        };
    }
    let most = (times * u128::from(least)).saturating_sub(value.cost);
    Value {
        top: least,
        gain: most.min(value.gain),
        cost: value.cost,
    }
}
