//! The top call: all that the program does.
ghost use Rattle.std.specs.Prelude.{◌≡◌, ◌≢◌, ◌⊎◌, ◌≤◌, ◌++◌, ◌∷◌, [], ℕ, List, Option, Some, None, length, map, take, true, false, string_bytes, IsTrue, IfSome, MatchResult};
ghost use Rattle.run_outcomes.specs.Devices.{devices};
ghost use Rattle.tmf_edges.specs.Moves.{AppendsPart};
ghost use Rattle.tmf_model.specs.Script.{IsValidScript};
ghost use Rattle.tmf_model.specs.declared.script.Script.{Script};
ghost use Rattle.tmf_cli.specs.declared.status.Status.{Status};
ghost use Rattle.tmf_cli.specs.ActionGiven.{KeepsSink};
ghost use Rattle.tmf_cli.specs.AnyDevices.{PrintsBy, PrintsOfSome};
ghost use Rattle.tmf_cli.specs.Bank.{AnswersBank};
ghost use Rattle.tmf_cli.specs.BetweenActions.{LeavesBay};
ghost use Rattle.tmf_cli.specs.Call.{AnswersText, AnswersUsage, HasStatus, KeepsBay, KeepsOn};
ghost use Rattle.tmf_cli.specs.Countdown.{NoneKilled, OnceSwitched};
ghost use Rattle.tmf_cli.specs.Counts.{CountsFailures};
ghost use Rattle.tmf_cli.specs.Faultless.{IsFaultlessOutput, IsKnown};
ghost use Rattle.tmf_cli.specs.Headline.{KeepsEveryCommit};
ghost use Rattle.tmf_lines.specs.Line.{lines_text};
ghost use Rattle.tmf_cli.specs.Single.{AreSingle};
ghost use Rattle.tmf_cli.specs.Status.{code_of};
ghost use Rattle.tmf_lines.specs.Script.{IsRefusalOf, IsScriptOf};
ghost use Rattle.tmf_cli.specs.OneOutput.{FormatsFirst, IsTheOutput, NoneRose};
ghost use Rattle.tmf_cli.specs.OutputLaw.{Candidate};
ghost use Rattle.tmf_cli.specs.ReadScript.{KeepsSource, ReadsNone, ReadsScript};
ghost use Rattle.tmf_cli.specs.Top.{IsPlayed, read_limit, IsStatusCaused, IsGiven, SaysWhy, TellsRefusal, Opens, Tells, TellsBy};
ghost use Rattle.tmf_words.specs.Words.{are_accepted, bank_of, is_run};
ghost use Rattle.disk_model.specs.Devices.{DevicesTell};

use crate::bank::run_bank;
use crate::means::Means;
use crate::play::play;
use crate::status::Status;
use disk_model::{Bay, Disk};
use single_law::one_run_law;
use std::alloc::Global;
use std::sync::Wait;
use std::thread::Threads;
use tmf_edges::{ReadFault, Sink, Source, read_to_limit};
use tmf_lines::{GiveFault, Line, ScriptRefusal, give_lines, read_script};
use tmf_model::Script;
use tmf_words::{Asked, accepts, asked_by};

/// The most bytes that are read of a script: one more than it may have.
const READ_LIMIT: usize = 4_194_305;

/// Gives the line of a status that stays the same where the sink fails.
fn tell<K: Sink>(alloc: Global, sink: &mut K, line: Line, status: Status) -> Status
    ensures status { (result ≡ status) ⊎ (result ≡ Status.NoMemory) }
    ensures told { IsTrue (K.tells sink.old)
        → ((result ≡ Status.NoMemory) × (K.given sink.new ≡ K.given sink.old)) ⊎ ((result ≡ status) × IsGiven (K.given sink.old) (K.given sink.new) (K.faults sink.old) (K.faults sink.new) (lines_text (line ∷ []))) }
    ensures tells { K.tells sink.new ≡ K.tells sink.old }
    ensures later { K.faults sink.old ≤ K.faults sink.new }
{
    match give_lines(alloc, sink, &[line]) {
        Ok(()) => status,
        Err(GiveFault::SinkFailed) => status,
        Err(GiveFault::NoMemory) => Status::NoMemory,
    }
}

/// Carries out the script's actions, with the countdown off before the first, and answers how they end.
fn carry_out<R: Threads + Wait + Sync, K: Sink, D: Disk + Send>(
    means: Means<'_, R>,
    script: &Script,
    sink: &mut K,
    bay: Bay<D>,
) -> (Status, Bay<D>)
    requires valid { IsValidScript script.now }
    ensures told { (candidates : Option (List Candidate)) → DevicesTell D.tells bay → Opens D.held script.now bay candidates
        → OnceSwitched (λ opened. Tells D.held D.faults script.now candidates result.0 opened result.1 (IsTrue (K.tells sink.old)) (K.given sink.old) (K.given sink.new)) bay }
    ensures prints { OnceSwitched (λ opened. PrintsBy D.Disk script.now.config script.now.actions (code_of result.0) opened result.1 (IsTrue (K.tells sink.old)) (K.given sink.old) (K.given sink.new)) bay }
    ensures keeps { OnceSwitched (λ opened. LeavesBay D.Disk script.now.config (NoneKilled script.now.actions) opened result.1) bay }
    ensures keeps_sink { KeepsSink K.Sink sink.old sink.new }
    ensures cause { IsStatusCaused result.0 (K.faults sink.old) (K.faults sink.new) }
    ensures all { length bay ≡ devices }
{
    let mut bay = bay;
    bay.disarm();
    let (played, bay) = play(means, &script.config, script.actions.as_slice(), sink, bay);
    match played {
        Ok(()) => (Status::Done, bay),
        Err(fault) => (Status::of_fault(fault), bay),
    }
}

/// The line that says why a text is no script; none where memory ran out.
fn refusal_line(refusal: ScriptRefusal) -> Option<Line>
    ensures why { IfSome result (λ line. (text : List ℕ) → IsRefusalOf text refusal → SaysWhy text line) }
    ensures none { refusal ≡ ScriptRefusal.NoMemory → result ≡ None }
    ensures only { result ≡ None → refusal ≡ ScriptRefusal.NoMemory }
{
    match refusal {
        ScriptRefusal::NoMemory => None,
        ScriptRefusal::Refused { line, why } => Some(Line::NotScript(line, why)),
    }
}

/// Says why a text is no script.
fn refuse<K: Sink>(alloc: Global, sink: &mut K, refusal: ScriptRefusal) -> Status
    ensures status { (result ≡ Status.Refused) ⊎ (result ≡ Status.NoMemory) }
    ensures none { refusal ≡ ScriptRefusal.NoMemory → result ≡ Status.NoMemory }
    ensures silent { IsTrue (K.tells sink.old) → result ≡ Status.NoMemory → K.given sink.new ≡ K.given sink.old }
    ensures told { (text : List ℕ) → IsRefusalOf text refusal → IsTrue (K.tells sink.old) → result ≡ Status.Refused
        → TellsRefusal text (K.given sink.old) (K.given sink.new) (K.faults sink.old) (K.faults sink.new) }
    ensures tells { K.tells sink.new ≡ K.tells sink.old }
    ensures later { K.faults sink.old ≤ K.faults sink.new }
{
    match refusal_line(refusal) {
        Some(line) => tell(alloc, sink, line, Status::Refused),
        None => Status::NoMemory,
    }
}

/// Reads the script, or says why the text is none.
fn script_from<S: Source, K: Sink>(
    alloc: Global,
    source: &mut S,
    sink: &mut K,
) -> Result<Script, Status>
    ensures read { MatchResult result (λ script. ReadsScript S.Source K.Sink script source.old source.new sink.old sink.new) (λ status. ReadsNone S.Source K.Sink status source.old source.new sink.old sink.new) }
    ensures keeps_source { KeepsSource S.Source source.old source.new }
    ensures keeps_sink { KeepsSink K.Sink sink.old sink.new }
{
    let text = match read_to_limit(alloc, source, READ_LIMIT) {
        Ok(text) => text,
        Err(ReadFault::Failed) => return Err(Status::SourceFailed),
        Err(ReadFault::NoMemory) => return Err(Status::NoMemory),
    };
    match read_script(alloc, &text) {
        Ok(script) => Ok(script),
        Err(refusal) => Err(refuse(alloc, sink, refusal)),
    }
}

/// Reads the script and carries out its actions.
fn run_script<R: Threads + Wait + Sync, S: Source, K: Sink, D: Disk + Send>(
    means: Means<'_, R>,
    source: &mut S,
    sink: &mut K,
    bay: Bay<D>,
) -> (Status, Bay<D>)
    ensures told { (script : Script) (candidates : Option (List Candidate)) → IsScriptOf script (take read_limit (S.rest source.old)) → IsTrue (S.tells source.old) → DevicesTell D.tells bay
        → Opens D.held script bay candidates → OnceSwitched (λ opened. Tells D.held D.faults script candidates result.0 opened result.1 (IsTrue (K.tells sink.old)) (K.given sink.old) (K.given sink.new)) bay }
    ensures prints { (script : Script) → IsScriptOf script (take read_limit (S.rest source.old)) → IsTrue (S.tells source.old)
        → OnceSwitched (λ opened. PrintsBy D.Disk script.config script.actions (code_of result.0) opened result.1 (IsTrue (K.tells sink.old)) (K.given sink.old) (K.given sink.new)) bay }
    ensures prints_some { IsPlayed (code_of result.0) → PrintsOfSome D.Disk (code_of result.0) bay result.1 (IsTrue (S.tells source.old)) (take read_limit (S.rest source.old)) (IsTrue (K.tells sink.old)) (K.given sink.old) (K.given sink.new) }
    ensures text { IsTrue (S.tells source.old) → AnswersText S.Source K.Sink D.Disk true (code_of result.0) source.old source.new sink.old sink.new bay result.1 }
    ensures status { HasStatus S.Source K.Sink true (code_of result.0) source.old source.new sink.old sink.new bay result.1 }
    ensures keeps { KeepsOn S.Source K.Sink D.Disk (code_of result.0) source.old source.new sink.old sink.new bay result.1 }
    ensures all { result.0 ≡ Status.Done → length bay ≡ devices }
{
    match script_from(means.alloc, source, sink) {
        Ok(script) => carry_out(means, &script, sink, bay),
        Err(status) => (status, bay),
    }
}

/// Devices on which no call was made are the same, tell their state as before, and have not failed.
pub fn left_alone<D: Disk>(bay: &Bay<D>)
    ensures { KeepsBay D.Disk bay.now bay.now }
{}

/// Reads the script from the source and carries out its actions on the devices, whose lines go to the
/// sink; where the words ask for a bank run, the script is the bank's, and the sink gets five lines of
/// what its own come to. It answers the program's exit status and the devices.
pub fn tmf<R: Threads + Wait + Sync, S: Source, K: Sink, D: Disk + Send>(
    rt: &R,
    alloc: Global,
    words: &[String],
    source: &mut S,
    sink: &mut K,
    bay: Bay<D>,
) -> (u8, Bay<D>)
    // Where the words are not accepted, the usage line is given, or nothing where memory lacks.
    ensures usage { are_accepted (map string_bytes words.now) ≡ false → AnswersUsage K.Sink result.0 source.old source.new sink.old sink.new bay result.1 }

    // The promise: however the call ends, whatever a crash then leaves of the devices stands for what stood at the last whole format, or when the call began, and behind it for every
    // commit that the lines acknowledge since, each at its place and whole, for those alone besides that they leave in doubt, and for nothing of any other transaction;
    // unless the last format that was begun was not whole, or nothing was known of the devices and the script has formatted none. Its premises: source and devices tell their state, and
    // the devices that are handed in may stand for these lists and maps.
    ensures headline { (script : Script) (candidates : Option (List Candidate)) → is_run (map string_bytes words.now) ≡ true → IsScriptOf script (take read_limit (S.rest source.old))
        → IsTrue (S.tells source.old) → DevicesTell D.tells bay → Opens D.held script bay candidates
        → OnceSwitched (λ opened. KeepsEveryCommit D.held D.faults script candidates result.0 opened result.1 (IsTrue (K.tells sink.old)) (K.given sink.old) (K.given sink.new)) bay }

    // The lines of the promise tell of no device more often than it has failed: its count of faults rose in the call by as many, or stands at the end of its type. They are the lines of
    // failed actions and attempts, of a commit in doubt, and of an attempt that was not backed out for a failed call.
    ensures counts { (script : Script) (candidates : Option (List Candidate)) → is_run (map string_bytes words.now) ≡ true → IsScriptOf script (take read_limit (S.rest source.old))
        → IsTrue (S.tells source.old) → DevicesTell D.tells bay → Opens D.held script bay candidates
        → OnceSwitched (λ opened. CountsFailures D.held D.faults script candidates result.0 opened result.1 (IsTrue (K.tells sink.old)) (K.given sink.old) (K.given sink.new)) bay }

    // The law of the output: a script prints, action by action, what the node's state and the list and the map ask for that its devices
    // stand for; and however the call ends, whatever a crash then leaves of the devices stands for a list and a map that the law allows, unless the last
    // format that was begun was not whole. The law is told of whatever the devices that are handed in may stand for; of others `candidates` is none, and what they
    // stand for is known from the first whole format on.
    ensures told { (script : Script) (candidates : Option (List Candidate)) → is_run (map string_bytes words.now) ≡ true → IsScriptOf script (take read_limit (S.rest source.old))
        → IsTrue (S.tells source.old) → DevicesTell D.tells bay → Opens D.held script bay candidates
        → OnceSwitched (λ opened. TellsBy D.held D.faults script candidates result.0 opened result.1 (IsTrue (K.tells sink.old)) (K.given sink.old) (K.given sink.new)) bay }

    // The same over any devices, also those that do not tell what they hold, as the files of a folder: action by action a script prints what the node's state allows. The outcomes of a run are those of one
    // history; and a line that tells of a failed device has that failure for its cause, no device more often than it failed.
    ensures prints { (script : Script) → is_run (map string_bytes words.now) ≡ true → IsScriptOf script (take read_limit (S.rest source.old)) → IsTrue (S.tells source.old)
        → OnceSwitched (λ opened. PrintsBy D.Disk script.config script.actions result.0 opened result.1 (IsTrue (K.tells sink.old)) (K.given sink.old) (K.given sink.new)) bay }

    // So also where the source does not tell its text, as standard input: with status 0 or 4 the actions are those of some valid script. Of status 2, with which actions may have been carried
    // out too, this says nothing.
    ensures prints_some { is_run (map string_bytes words.now) ≡ true → IsPlayed result.0 → PrintsOfSome D.Disk result.0 bay result.1 (IsTrue (S.tells source.old)) (take read_limit (S.rest source.old)) (IsTrue (K.tells sink.old)) (K.given sink.old) (K.given sink.new) }

    // Of a script that formats first, and whose runs are single, where no device fails, the status is 0, and no line tells of a limit or of want of memory, the output is the one that the script determines, whatever
    // devices were handed in, apart from the positions that control points, dumps and rollforwards tell; where no line tells one, the output is exactly this. A run is single that has one worker or none.
    ensures one_output { (script : Script) → is_run (map string_bytes words.now) ≡ true → IsScriptOf script (take read_limit (S.rest source.old)) → IsTrue (S.tells source.old) → IsTrue (K.tells sink.old)
        → DevicesTell D.tells bay → FormatsFirst script → AreSingle script.actions → NoneRose D.faults bay result.1 → result.0 ≡ 0
        → OnceSwitched (λ opened. IsTheOutput D.held D.faults script opened result.1 (K.given sink.old) (K.given sink.new)) bay }

    // Completeness: where no device fails and the status is 0, and it is known what the devices that are handed in may stand for, or the script formats first, none of the lines that were
    // given tells of a fault: each action was carried out, or refused for what the node and its devices are, and each attempt of a run ended in a way that has no fault for its cause.
    ensures faultless { (script : Script) (candidates : Option (List Candidate)) → is_run (map string_bytes words.now) ≡ true → IsScriptOf script (take read_limit (S.rest source.old)) → IsTrue (S.tells source.old)
        → IsTrue (K.tells sink.old) → DevicesTell D.tells bay → Opens D.held script bay candidates → IsKnown candidates ⊎ FormatsFirst script → NoneRose D.faults bay result.1 → result.0 ≡ 0
        → IsFaultlessOutput (K.given sink.old) (K.given sink.new) }

    // Of words that ask for no bank run: a script is carried out, any other text is refused; and each status has its cause and its lines. Status 2 is want of memory.
    ensures text { bank_of (map string_bytes words.now) ≡ None → IsTrue (S.tells source.old) → AnswersText S.Source K.Sink D.Disk (are_accepted (map string_bytes words.now)) result.0 source.old source.new sink.old sink.new bay result.1 }
    ensures status { bank_of (map string_bytes words.now) ≡ None → HasStatus S.Source K.Sink (are_accepted (map string_bytes words.now)) result.0 source.old source.new sink.old sink.new bay result.1 }

    ensures keeps { bank_of (map string_bytes words.now) ≡ None → KeepsOn S.Source K.Sink D.Disk result.0 source.old source.new sink.old sink.new bay result.1 }

    // Of words that ask for one: the promise and the law hold of the bank's script, and the sink is given what its lines come to. The source is left alone.
    ensures bank { (transfers : ℕ) → bank_of (map string_bytes words.now) ≡ Some transfers → (source.new ≡ source.old) × AnswersBank K.Sink D.Disk transfers result.0 sink.old sink.new bay result.1 }
{
    if !accepts(words) {
        left_alone(&bay);
        return (tell(alloc, sink, Line::Usage, Status::Usage).code(), bay);
    }
    let Ok(asked) = asked_by(alloc, words) else {
        left_alone(&bay);
        return (Status::NoMemory.code(), bay);
    };
    let means = Means { rt, alloc };
    if let Asked::Bank(transfers) = asked {
        let (status, bay) = run_bank(means, transfers, sink, bay);
        return (status.code(), bay);
    }
    one_run_law();
    let (status, bay) = run_script(means, source, sink, bay);
    (status.code(), bay)
}
