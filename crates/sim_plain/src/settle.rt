//! One pass over the signals in order, and the next values of registers.
ghost use Rattle.std.specs.Prelude.{◌≡◌, ℕ, ◌<◌, ◌≤◌, ◌%◌, ◌^◌, false, length, slice_index, slice_set};
ghost use Rattle.net_core.specs.Signals.{info, given_width};
ghost use Rattle.net_core.specs.Settled.{fitted};
ghost use Rattle.net_core.specs.Nets.{equation, by_equation, next_value};
ghost use Rattle.net_core.specs.Engines.{SettledNet, next_values};
ghost use Rattle.sim_plain.specs.Words.{at, InWidths};
ghost use Rattle.sim_plain.specs.Ready.{Fits, Kept, InOrder, Runs, numbers};

use crate::choices::chosen_value;
use crate::words::{nothing, number_at, width_within};
use net_core::{Choice, Equation, Net, Signal, SignalInfo};
use tb_base::Bits;

/// The bits that a signal gets of a value.
fn fitted_bits(signal: &SignalInfo, word: Bits) -> u128
    requires { given_width signal.now ≤ 128 }
    ensures { result ≡ fitted signal.now word }
{
    word.fit(width_within(signal.width.unwrap_or(0))).raw()
}

/// As many low bits of `raw` as the signal has.
pub(crate) fn low_bits(net: &Net, x: usize, raw: u128) -> u128
    requires fits { Fits net.now }
    requires signal { x < length net.now.signals }
    ensures { result ≡ raw % 2 ^ given_width (info net.now.signals x) }
{
    let width = width_within(net.signals.items()[x].width.unwrap_or(0));
    Bits::new(width, false, raw).raw()
}

/// What a signal has by its equation.
fn by_equation(net: &Net, x: usize, inputs: &[u128], registers: &[u128], values: &[u128]) -> u128
    requires fits { Fits net.now }
    requires signal { x < length net.now.signals }
    requires widths { InWidths net.now.signals (at values.now) }
    ensures { result ≡ by_equation (equation net.now x) net.now.signals x (at inputs.now) (at registers.now) (at values.now) }
{
    let signals = net.signals.items();
    match &net.equations.items()[x] {
        Equation::Input => number_at(inputs, x),
        Equation::Comb(choices) => fitted_bits(
            &signals[x],
            chosen_value(choices.items(), signals, values, None).unwrap_or(nothing()),
        ),
        Equation::Reg { .. } => number_at(registers, x),
    }
}

/// The next value of a signal: a register's, or the old one.
fn next_bits(net: &Net, x: usize, values: &[u128], old: u128) -> u128
    requires fits { Fits net.now }
    requires signal { x < length net.now.signals }
    requires widths { InWidths net.now.signals (at values.now) }
    ensures { result ≡ next_value net.now x (at values.now) old }
{
    let signals = net.signals.items();
    match &net.equations.items()[x] {
        Equation::Input | Equation::Comb(_) => old,
        Equation::Reg { next } => match chosen_value(next.items(), signals, values, None) {
            None => old,
            Some(word) => fitted_bits(&signals[x], word),
        },
    }
}

/// The signal gets its value.
fn settle_one(net: &Net, x: usize, inputs: &[u128], registers: &[u128], values: &mut [u128])
    requires fits { Fits net.now }
    requires signal { x < length net.now.signals }
    requires kept { Kept net.now values.old }
    ensures { values.new ≡ slice_set values.old x (by_equation (equation net.now x) net.now.signals x (at inputs.now) (at registers.now) (at values.old)) }
{
    values[x] = by_equation(net, x, inputs, registers, values);
}

/// Each signal gets its value, in the order.
fn settle(net: &Net, order: &[Signal], inputs: &[u128], registers: &[u128], values: &mut [u128])
    requires fits { Fits net.now }
    requires order { InOrder net.now (numbers order.now) }
    requires inputs { Kept net.now inputs.now }
    requires registers { Kept net.now registers.now }
    requires values { Kept net.now values.old }
    ensures settled { SettledNet net.now inputs.now registers.now (at values.new) }
    ensures kept { Kept net.now values.new }
{
    for signal in order {
        settle_one(net, signal.0 as usize, inputs, registers, values);
    }
}

/// The values are settled again, where they are stale.
pub(crate) fn renew(
    net: &Net,
    order: &[Signal],
    inputs: &[u128],
    registers: &[u128],
    values: &mut [u128],
    stale: bool,
)
    requires { Runs net.now (numbers order.now) inputs.now registers.now values.old stale }
    ensures { Runs net.now (numbers order.now) inputs.now registers.now values.new false }
{
    if stale {
        settle(net, order, inputs, registers, values);
    }
}

/// Each register gets its next value.
pub(crate) fn advance(net: &Net, values: &[u128], registers: &mut [u128])
    requires fits { Fits net.now }
    requires values { Kept net.now values.now }
    requires registers { Kept net.now registers.old }
    ensures next { registers.new ≡ next_values net.now (at values.now) 0 registers.old }
    ensures kept { Kept net.now registers.new }
{
    for x in 0..registers.len() {
        registers[x] = next_bits(net, x, values, registers[x]);
    }
}
