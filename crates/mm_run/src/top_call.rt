//! The program's top call.
ghost use Rattle.std.specs.Prelude.{◌≡◌, ◌≤◌, ◌↔◌, ◌⊎◌, Some, None, true, false, [], ◌∷◌, ⊤, length, IfOk, IfErr};
ghost use Rattle.std.specs.Option.{option_copied};
ghost use Rattle.mm_base.specs.End.{out_of_memory};
ghost use Rattle.mm_io.specs.Causes.{Rose};
ghost use Rattle.mm_io.specs.Streams.{Appends, AppendsFront};
ghost use Rattle.mm_run.specs.Command.{command_of as command_of_words, drives};
ghost use Rattle.mm_run.specs.Run.{Reports};
ghost use Rattle.mm_run.specs.RunHeadline.{IsHeadlineOf, OfWorld};
ghost use Rattle.mm_run.specs.RunInside.{both_sources, one_source, HasOneSource, IsMade};
ghost use Rattle.mm_run.specs.RunShare.{IsSharedOut};
ghost use Rattle.mm_run.specs.RunWorld.{StandsForScript};
ghost use Rattle.mm_run.specs.ServeInside.{IsMadeOfBoth, IsMadeWith};
ghost use Rattle.mm_run.specs.Sources.{seen, source as source_of, sources, sources_of, sources_named};
ghost use Rattle.mm_run.specs.Sources.{RunStops, StopsRun, AllHoldGood, FirstBad, OthersAreUntouched, WasRead};
ghost use Rattle.mm_run.specs.Status.{writes, has_no_world};
ghost use Rattle.mm_run.specs.declared.command.Command.{Command as CommandValue};
ghost use Rattle.volume_policy.specs.PolicyFiles.{IsVolumePolicy};
ghost use Rattle.volume_reader.specs.VolumeGrammar.{IsVolume};
ghost use Rattle.mm_run.specs.declared.status.Status.{Status as StatusValue};

use crate::boot_run::{boot_bytes, good_volume};
use crate::check_run::check_volume;
use crate::command::{Command, command_of};
use crate::made::Made;
use crate::script_run::run_script;
use crate::serve_run::serve_script;
use crate::source_kind::SourceKind;
use crate::status::{Status, Which};
use comm_core::World;
use mm_base::{Bytes, Policy, Volume};
use mm_core::Core;
use mm_io::{Sink, Source, read_all, write_all};
use mm_text::read_script;
use std::alloc::Global;

/// How a run ended, and the world that it drove.
#[derive(Drop)]
pub struct RunEnd {
    /// Its status, whose number is the program's exit status.
    pub status: Status,
    /// The world, where a script was driven.
    pub world: Option<World<Core>>,
}

/// Does all that the program does. The words are `script`, `check` or `boot` and one word more, or `serve` and two: the script or the volume is the
/// first source, the script of `serve` the second, and the report goes to the sink. A script costs a step for each byte read and written and for each action of the
/// processor; a volume what `catalog` of `mm_core` says; its boot that and what `boot` of `mm_core` says; and `serve` what both do.
pub fn run<V: Source, S: Source, K: Sink>(
    alloc: Global,
    words: &Vec<String>,
    first: &mut V,
    second: &mut S,
    out: &mut K,
) -> RunEnd
    // Each status by its cause, in this order: the first source is read; its fault is told; the same for the second; the run
    // is made; the report is written.
    ensures usage { (result.status ≡ Status.Usage) ↔ (command_of_words words.now.items ≡ None) }
    ensures refusal { (command : CommandValue) → command_of_words words.now.items ≡ Some command →
        writes result.status ≡ false → RunStops (sources (sources_of command)
        (seen V.left V.fault_count first.old first.new) (seen S.left S.fault_count second.old second.new))
        (second.new ≡ second.old) result.status }
    ensures write_fault { result.status ≡ Status.WriteFault → Rose (K.fault_count out.old) (K.fault_count out.new) }

    // What is written: the report of the command for what its sources gave, a front of it, or nothing.
    ensures done { (command : CommandValue) → command_of_words words.now.items ≡ Some command →
        result.status ≡ Status.Done → Reports command (sources (sources_of command)
        (seen V.left V.fault_count first.old first.new) (seen S.left S.fault_count second.old second.new))
        (Appends (K.written out.old) (K.written out.new)) }
    ensures front { (command : CommandValue) → command_of_words words.now.items ≡ Some command →
        result.status ≡ Status.WriteFault → Reports command (sources (sources_of command)
        (seen V.left V.fault_count first.old first.new) (seen S.left S.fault_count second.old second.new))
        (AppendsFront (K.written out.old) (K.written out.new)) }
    ensures nothing { writes result.status ≡ false → out.new ≡ out.old }

    // Sources whose bytes are good, with no fault risen, are served, out of memory aside.
    ensures complete { (command : CommandValue) → command_of_words words.now.items ≡ Some command →
        AllHoldGood (sources (sources_of command)
        (seen V.left V.fault_count first.old first.new) (seen S.left S.fault_count second.old second.new)) →
        (Rose (K.fault_count out.old) (K.fault_count out.new) → ⊥) →
        (result.status ≡ Status.Done) ⊎ (result.status ≡ Status.NoMemory out_of_memory) }

    // The first source whose bytes have a fault, or are too many, is refused for that, out of memory aside.
    ensures faulty { (command : CommandValue) (status : StatusValue) →
        command_of_words words.now.items ≡ Some command →
        FirstBad (sources (sources_of command)
        (seen V.left V.fault_count first.old first.new) (seen S.left S.fault_count second.old second.new)) status →
        (result.status ≡ status) ⊎ (result.status ≡ Status.NoMemory out_of_memory) }

    // The headline. Whatever the script stores between any two steps, each entry loads each word of its request exactly once,
    // and the replies, statuses and records are the one-thread core's on the captured requests, in recorded order.
    ensures headline { (command : CommandValue) → command_of_words words.now.items ≡ Some command →
        drives command ≡ true → writes result.status ≡ true →
        OfWorld (IsHeadlineOf command (sources (sources_of command)
        (seen V.left V.fault_count first.old first.new) (seen S.left S.fault_count second.old second.new))
        (K.written out.old) (K.written out.new) result.status) result.world }

    // The world that is handed out stands for the script's events from that core.
    ensures stands { (command : CommandValue) → command_of_words words.now.items ≡ Some command →
        drives command ≡ true → writes result.status ≡ true →
        OfWorld (StandsForScript command (sources (sources_of command)
        (seen V.left V.fault_count first.old first.new) (seen S.left S.fault_count second.old second.new)))
        result.world }

    // Each group of images that is closed at lock gets of the recorded entries what the core gives where everything that isn't
    // granted to the group is erased, on what the group may learn of each request.
    ensures share { (command : CommandValue) → command_of_words words.now.items ≡ Some command →
        drives command ≡ true → writes result.status ≡ true →
        OfWorld (IsSharedOut command (sources (sources_of command)
        (seen V.left V.fault_count first.old first.new) (seen S.left S.fault_count second.old second.new)))
        result.world }
    ensures no_world { has_no_world result.status ≡ true → result.world ≡ None }
    ensures worldless { (command : CommandValue) → command_of_words words.now.items ≡ Some command →
        drives command ≡ false → result.world ≡ None }

    // A source is untouched that the words don't name.
    ensures untouched { OthersAreUntouched (sources_named (command_of_words words.now.items))
        (first.new ≡ first.old) (second.new ≡ second.old) }
{
    match command_of(words.as_slice()) {
        Some(command) => match command.source(Which::Second) {
            Some(_) => serve_both(alloc, first, second, out),
            None => serve_one(alloc, command, first, out),
        },
        None => refused(Status::Usage),
    }
}

/// The end of a run that was refused.
fn refused(status: Status) -> RunEnd
    ensures status { result.status ≡ status }
    ensures world { result.world ≡ None }
{
    RunEnd {
        status,
        world: None,
    }
}

/// Serves a command that has one source.
fn serve_one<V: Source, K: Sink>(
    alloc: Global,
    command: Command,
    first: &mut V,
    out: &mut K,
) -> RunEnd
    requires { HasOneSource command }
    ensures refusal { writes result.status ≡ false →
        StopsRun (one_source command (seen V.left V.fault_count first.old first.new)) result.status }
    ensures served { result.status ≡ Status.Usage → ⊥ }
    ensures write_fault { result.status ≡ Status.WriteFault → Rose (K.fault_count out.old) (K.fault_count out.new) }
    ensures done { result.status ≡ Status.Done →
        Reports command (one_source command (seen V.left V.fault_count first.old first.new) ∷ [])
        (Appends (K.written out.old) (K.written out.new)) }
    ensures front { result.status ≡ Status.WriteFault →
        Reports command (one_source command (seen V.left V.fault_count first.old first.new) ∷ [])
        (AppendsFront (K.written out.old) (K.written out.new)) }
    ensures nothing { writes result.status ≡ false → out.new ≡ out.old }
    ensures complete { AllHoldGood (one_source command (seen V.left V.fault_count first.old first.new) ∷ []) →
        (Rose (K.fault_count out.old) (K.fault_count out.new) → ⊥) →
        (result.status ≡ Status.Done) ⊎ (result.status ≡ Status.NoMemory out_of_memory) }
    ensures faulty { (status : StatusValue) →
        FirstBad (one_source command (seen V.left V.fault_count first.old first.new) ∷ []) status →
        (result.status ≡ status) ⊎ (result.status ≡ Status.NoMemory out_of_memory) }
    ensures headline { drives command ≡ true →
        writes result.status ≡ true →
        OfWorld
        (IsHeadlineOf command (one_source command (seen V.left V.fault_count first.old first.new) ∷ [])
        (K.written out.old) (K.written out.new) result.status)
        result.world }
    ensures stands { drives command ≡ true →
        writes result.status ≡ true →
        OfWorld
        (StandsForScript command (one_source command (seen V.left V.fault_count first.old first.new) ∷ []))
        result.world }
    ensures no_world { has_no_world result.status ≡ true → result.world ≡ None }
    ensures worldless { drives command ≡ false → result.world ≡ None }
{
    match make(alloc, command, first) {
        Ok(made) => write(made, out),
        Err(status) => refused(status),
    }
}

/// Reads the command's one source, and makes of it what the command says.
fn make<V: Source>(alloc: Global, command: Command, first: &mut V) -> Result<Made, Status>
    requires { HasOneSource command }
    ensures ok { IfOk result (IsMade command (seen V.left V.fault_count first.old first.new)) }
    ensures err { IfErr result (StopsRun (one_source command (seen V.left V.fault_count first.old first.new))) }
{
    match command {
        Command::Script => {
            let text = read(alloc, SourceKind::ScriptText, Which::First, first)?;
            run_script(alloc, text.as_slice())
        }
        Command::Check => {
            let volume = read(alloc, SourceKind::VolumeBytes, Which::First, first)?;
            check_volume(alloc, volume.as_slice())
        }
        Command::Boot => {
            let volume = read(alloc, SourceKind::VolumeBytes, Which::First, first)?;
            boot_bytes(alloc, volume.as_slice())
        }
        Command::Serve => unreachable!(),
    }
}

/// Serves `serve`, which has two sources. The second one is not read where the first one stops the run.
fn serve_both<V: Source, S: Source, K: Sink>(
    alloc: Global,
    first: &mut V,
    second: &mut S,
    out: &mut K,
) -> RunEnd
    ensures refusal { writes result.status ≡ false →
        RunStops (both_sources (seen V.left V.fault_count first.old first.new) (seen S.left S.fault_count second.old second.new))
        (second.new ≡ second.old) result.status }
    ensures served { result.status ≡ Status.Usage → ⊥ }
    ensures write_fault { result.status ≡ Status.WriteFault → Rose (K.fault_count out.old) (K.fault_count out.new) }
    ensures done { result.status ≡ Status.Done → Reports Command.Serve
        (both_sources (seen V.left V.fault_count first.old first.new) (seen S.left S.fault_count second.old second.new))
        (Appends (K.written out.old) (K.written out.new)) }
    ensures front { result.status ≡ Status.WriteFault → Reports Command.Serve
        (both_sources (seen V.left V.fault_count first.old first.new) (seen S.left S.fault_count second.old second.new))
        (AppendsFront (K.written out.old) (K.written out.new)) }
    ensures nothing { writes result.status ≡ false → out.new ≡ out.old }
    ensures complete { AllHoldGood
        (both_sources (seen V.left V.fault_count first.old first.new) (seen S.left S.fault_count second.old second.new)) →
        (Rose (K.fault_count out.old) (K.fault_count out.new) → ⊥) →
        (result.status ≡ Status.Done) ⊎ (result.status ≡ Status.NoMemory out_of_memory) }
    ensures faulty { (status : StatusValue) → FirstBad
        (both_sources (seen V.left V.fault_count first.old first.new) (seen S.left S.fault_count second.old second.new)) status →
        (result.status ≡ status) ⊎ (result.status ≡ Status.NoMemory out_of_memory) }
    ensures headline { writes result.status ≡ true → OfWorld (IsHeadlineOf Command.Serve
        (both_sources (seen V.left V.fault_count first.old first.new) (seen S.left S.fault_count second.old second.new))
        (K.written out.old) (K.written out.new) result.status) result.world }
    ensures stands { writes result.status ≡ true → OfWorld (StandsForScript Command.Serve
        (both_sources (seen V.left V.fault_count first.old first.new) (seen S.left S.fault_count second.old second.new)))
        result.world }
    ensures no_world { has_no_world result.status ≡ true → result.world ≡ None }
{
    match make_of_both(alloc, first, second) {
        Ok(made) => write(made, out),
        Err(status) => refused(status),
    }
}

/// Reads both sources of `serve`, one after another, and makes of them what it says. Each source's fault is told before the next one is
/// read.
fn make_of_both<V: Source, S: Source>(
    alloc: Global,
    first: &mut V,
    second: &mut S,
) -> Result<Made, Status>
    ensures ok { IfOk result (IsMadeOfBoth (seen V.left V.fault_count first.old first.new)
        (seen S.left S.fault_count second.old second.new)) }
    ensures err { IfErr result (RunStops
        (both_sources (seen V.left V.fault_count first.old first.new) (seen S.left S.fault_count second.old second.new))
        (second.new ≡ second.old)) }
{
    let bytes = read(alloc, SourceKind::VolumeBytes, Which::First, first)?;
    let (volume, policy) = good_volume(alloc, bytes.as_slice())?;
    make_with(alloc, bytes.as_slice(), &volume, policy.as_ref(), second)
}

/// Reads the second source of `serve`, and makes of it and of a volume, whose policy is known, what `serve` says.
fn make_with<S: Source>(
    alloc: Global,
    bytes: &[u8],
    volume: &Volume,
    policy: Option<&Policy>,
    second: &mut S,
) -> Result<Made, Status>
    requires volume { IsVolume bytes.now volume.now }
    requires few { length bytes.now ≤ 16777216 }
    requires policy { IsVolumePolicy bytes.now volume.now.files (option_copied policy) }
    ensures ok { IfOk result (IsMadeWith bytes.now (seen S.left S.fault_count second.old second.new)) }
    ensures err { IfErr result (RunStops
        (source_of Which.Second SourceKind.EventsText (seen S.left S.fault_count second.old second.new) ∷ []) ⊤) }
{
    let text = read(alloc, SourceKind::EventsText, Which::Second, second)?;
    let script = read_script(alloc, text.as_slice(), false)?;
    serve_script(alloc, bytes, volume, policy, &script)
}

/// All bytes of a source of this kind.
fn read<S: Source>(
    alloc: Global,
    kind: SourceKind,
    which: Which,
    source: &mut S,
) -> Result<Bytes, Status>
    ensures ok { IfOk result (WasRead (source_of which kind (seen S.left S.fault_count source.old source.new))) }
    ensures err { IfErr result (StopsRun (source_of which kind (seen S.left S.fault_count source.old source.new))) }
{
    match read_all(alloc, source, kind.most_bytes()) {
        Ok(bytes) => Ok(bytes),
        Err(end) => Err(Status::of_read(end, which)),
    }
}

/// Writes the report.
fn write<K: Sink>(made: Made, out: &mut K) -> RunEnd
    ensures status { (result.status ≡ Status.Done) ⊎ (result.status ≡ Status.WriteFault) }
    ensures world { result.world ≡ made.world }
    ensures done { result.status ≡ Status.Done → Appends (K.written out.old) (K.written out.new) made.text }
    ensures write_fault { result.status ≡ Status.WriteFault → Rose (K.fault_count out.old) (K.fault_count out.new) }
    ensures front { result.status ≡ Status.WriteFault → AppendsFront (K.written out.old) (K.written out.new) made.text }
{
    let Made { world, text } = made;
    let status = match write_all(out, text.as_slice()) {
        Ok(()) => Status::Done,
        Err(_) => Status::WriteFault,
    };
    RunEnd { status, world }
}
