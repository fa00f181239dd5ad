//! The line that says why a text is refused: the parts that such lines have, and those of circuits.
ghost use Rattle.std.specs.Prelude.{◌≡◌, ◌++◌, codes, flat_map, OnOk, IfOk};
ghost use Rattle.design_core.specs.Built as built;
ghost use Rattle.threadbench.specs.Forms.{Unbuilt};
ghost use Rattle.threadbench.specs.Refusals.{form_text, kind_text, fault_text, numbered, loop_text, refusal_line, circuit_line, refusal_text};
ghost use Rattle.threadbench.specs.Answers.{LineOfRead, LineOfCheck, LineOfFlat, LineOfWidth, LineOfBuild};

use design_core::BuildFault;
use fir_check::CheckFault;
use fir_flat::FlatFault;
use fir_read::ReadFault;
use fir_widths::WidthFault;
use std::alloc::Global;
use tb_base::{Memory, Name, Place, put, put_decimal, put_place};
use text_grammar::{Form, Kind};

/// What stands in front of what is said of a circuit.
const CIRCUIT: &[u8] = b"circuit: ";

/// The word of a form that is known and not taken.
fn form_word(form: Form) -> &'static [u8]
    ensures { result.now ≡ form_text form }
{
    match form {
        Form::Annotation => b"annotation",
        Form::ExternalModule => b"external module",
        Form::Type => b"type",
        Form::Enumeration => b"enumeration",
        Form::Operation => b"operation",
        Form::Connect => b"connect",
        Form::Statement => b"statement",
        Form::Memory => b"memory",
        Form::QuotedName => b"quoted name",
    }
}

/// Puts that a form isn't taken.
fn put_unsupported(out: &mut Vec<u8>, form: Form) -> Result<(), Memory>
    ensures { OnOk result (out.new.items ≡ out.old.items ++ (codes "unsupported " ++ form_text form)) }
{
    put(out, b"unsupported ")?;
    put(out, form_word(form))?;
    Ok(())
}

/// Puts why a place is faulty.
fn put_kind(out: &mut Vec<u8>, kind: Kind) -> Result<(), Memory>
    ensures { OnOk result (out.new.items ≡ out.old.items ++ kind_text kind) }
{
    match kind {
        Kind::Syntax => put(out, b"syntax"),
        Kind::TooDeep | Kind::HeadTooDeep => put(out, b"too deep"),
        Kind::NumberTooWide => put(out, b"number too wide"),
        Kind::Unsupported(form) => put_unsupported(out, form),
    }
}

/// The line of a faulty place, in a text of this kind.
pub fn fault_line(alloc: Global, of: &[u8], kind: Kind, place: Place) -> Result<Vec<u8>, Memory>
    ensures { IfOk result (λ v. v.items ≡ refusal_line of.now (fault_text kind place)) }
{
    let mut out = Vec::new(alloc);
    put(&mut out, of)?;
    put_place(alloc, &mut out, place)?;
    put(&mut out, b": ")?;
    put_kind(&mut out, kind)?;
    put(&mut out, b"\n")?;
    Ok(out)
}

/// The line of a rule that a line of the text breaks, in a text of this kind.
pub fn break_line(alloc: Global, of: &[u8], line: u32, rule: &[u8]) -> Result<Vec<u8>, Memory>
    ensures { IfOk result (λ v. v.items ≡ refusal_line of.now (numbered line rule.now)) }
{
    let mut out = Vec::new(alloc);
    put(&mut out, of)?;
    put(&mut out, b"line ")?;
    put_decimal(alloc, &mut out, u128::from(line))?;
    put(&mut out, b": ")?;
    put(&mut out, rule)?;
    put(&mut out, b"\n")?;
    Ok(out)
}

/// The line that says so much of a text of this kind.
pub fn plain_line(alloc: Global, of: &[u8], text: &[u8]) -> Result<Vec<u8>, Memory>
    ensures { IfOk result (λ v. v.items ≡ refusal_line of.now text.now) }
{
    let mut out = Vec::new(alloc);
    put(&mut out, of)?;
    put(&mut out, text)?;
    put(&mut out, b"\n")?;
    Ok(out)
}

/// The line of a signal that isn't initialised.
#[tactic(auto, unfolding(crate::specs::Refusals::refusal_text))]
fn open_line(alloc: Global, name: &Name) -> Result<Vec<u8>, Memory>
    ensures { IfOk result (λ v. v.items ≡ refusal_text (Unbuilt (built.NotInitialised name.now))) }
{
    let mut out = Vec::new(alloc);
    put(&mut out, b"circuit: ")?;
    put(&mut out, name.bytes())?;
    put(&mut out, b" is not initialised\n")?;
    Ok(out)
}

/// Puts a name with an arrow to the next.
fn put_arrow(out: &mut Vec<u8>, name: &Name) -> Result<(), Memory>
    ensures { OnOk result (out.new.items ≡ out.old.items ++ (name.now ++ codes " > ")) }
{
    put(out, name.bytes())?;
    put(out, b" > ")?;
    Ok(())
}

/// Puts names, each with an arrow to the next.
fn put_arrows(out: &mut Vec<u8>, names: &[Name]) -> Result<(), Memory>
    ensures { OnOk result (out.new.items ≡ out.old.items ++ flat_map (λ n. n ++ codes " > ") names.now) }
{
    for name in names {
        put_arrow(out, name)?;
    }
    Ok(())
}

/// Puts the names of a loop, and the first again.
fn put_loop(out: &mut Vec<u8>, names: &[Name]) -> Result<(), Memory>
    ensures { OnOk result (out.new.items ≡ out.old.items ++ loop_text names.now) }
{
    let [first, ..] = names else {
        return Ok(());
    };
    put_arrows(out, names)?;
    put(out, first.bytes())?;
    Ok(())
}

/// The line of a loop.
#[tactic(auto, unfolding(crate::specs::Refusals::refusal_text))]
fn loop_line(alloc: Global, names: &[Name]) -> Result<Vec<u8>, Memory>
    ensures { IfOk result (λ v. v.items ≡ refusal_text (Unbuilt (built.Looped names.now))) }
{
    let mut out = Vec::new(alloc);
    put(&mut out, b"circuit: loop ")?;
    put_loop(&mut out, names)?;
    put(&mut out, b"\n")?;
    Ok(out)
}

/// The line that a fault of reading is answered with.
#[tactic(auto, unfolding(crate::specs::Refusals::refusal_text))]
pub fn read_refusal(alloc: Global, fault: ReadFault) -> Result<Vec<u8>, Memory>
    ensures { IfOk result (λ v. LineOfRead fault v.items) }
{
    match fault {
        ReadFault::Syntax(place) => fault_line(alloc, CIRCUIT, Kind::Syntax, place),
        ReadFault::Unsupported(place, form) => fault_line(
            alloc,
            CIRCUIT,
            Kind::Unsupported(form),
            place,
        ),
        ReadFault::NumberTooWide(place) => fault_line(alloc, CIRCUIT, Kind::NumberTooWide, place),
        ReadFault::TooDeep(place) => fault_line(alloc, CIRCUIT, Kind::TooDeep, place),
        ReadFault::Memory(memory) => Err(memory),
    }
}

/// The line that a broken rule is answered with.
#[tactic(auto, unfolding(crate::specs::Refusals::refusal_text))]
fn check_refusal(alloc: Global, fault: CheckFault) -> Result<Vec<u8>, Memory>
    ensures { IfOk result (λ v. LineOfCheck fault v.items) }
{
    match fault {
        CheckFault::NoMain(line) => break_line(alloc, CIRCUIT, line, b"no main module"),
        CheckFault::DoubleName(line) => break_line(alloc, CIRCUIT, line, b"double name"),
        CheckFault::UnknownName(line) => break_line(alloc, CIRCUIT, line, b"unknown name"),
        CheckFault::WrongKind(line) => break_line(alloc, CIRCUIT, line, b"wrong kind"),
        CheckFault::WrongFlow(line) => break_line(alloc, CIRCUIT, line, b"wrong flow"),
        CheckFault::ClockUse(line) => break_line(alloc, CIRCUIT, line, b"clock use"),
        CheckFault::InstanceCycle(line) => break_line(alloc, CIRCUIT, line, b"instance cycle"),
        CheckFault::Memory(memory) => Err(memory),
    }
}

/// The line that a limit of the elaboration is answered with.
#[tactic(auto, unfolding(crate::specs::Refusals::refusal_text))]
fn flat_refusal(alloc: Global, fault: FlatFault) -> Result<Vec<u8>, Memory>
    ensures { IfOk result (λ v. LineOfFlat fault v.items) }
{
    match fault {
        FlatFault::TooManyPorts => plain_line(alloc, CIRCUIT, b"too many ports"),
        FlatFault::TooManySignals => plain_line(alloc, CIRCUIT, b"too many signals"),
        FlatFault::TooManyParts => plain_line(alloc, CIRCUIT, b"too many parts"),
        FlatFault::Memory(memory) => Err(memory),
    }
}

/// The line that a broken rule of the widths is answered with.
#[tactic(auto, unfolding(crate::specs::Refusals::refusal_text))]
fn width_refusal(alloc: Global, fault: WidthFault) -> Result<Vec<u8>, Memory>
    ensures { IfOk result (λ v. LineOfWidth fault v.items) }
{
    match fault {
        WidthFault::TooWide(line) => break_line(alloc, CIRCUIT, line, b"too wide"),
        WidthFault::BadRange(line) => break_line(alloc, CIRCUIT, line, b"bad range"),
        WidthFault::Memory(memory) => Err(memory),
    }
}

/// The line that a fault of building is answered with.
pub fn build_refusal(alloc: Global, fault: BuildFault) -> Result<Vec<u8>, Memory>
    ensures { IfOk result (λ v. LineOfBuild fault v.items) }
{
    match fault {
        BuildFault::Read(fault) => read_refusal(alloc, fault),
        BuildFault::Check(fault) => check_refusal(alloc, fault),
        BuildFault::Flat(fault) => flat_refusal(alloc, fault),
        BuildFault::Width(fault) => width_refusal(alloc, fault),
        BuildFault::Resolve(name) => open_line(alloc, &name),
        BuildFault::Loop(names) => loop_line(alloc, names.items()),
        BuildFault::Memory(memory) => Err(memory),
    }
}
