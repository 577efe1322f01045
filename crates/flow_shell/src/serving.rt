//! Requests, answered one after the other while Files are fed.

ghost use Rattle.std.specs.Prelude.{◌≡◌, ◌≢◌, ◌≤◌, ⊤, ℕ, IfErr, IfOk, IfSome, IsTrue, List, OnOk, Option, Some};
ghost use Rattle.std.specs.Prelude.{option_and_then, string_bytes};
ghost use Rattle.std.specs.Io.KnownBytes.{Appends};
ghost use Rattle.flow_shell.specs.Written.{began_line, HasTold};
ghost use Rattle.flow_roller.specs.Asked.{Asked};
ghost use Rattle.flow_shell.specs.Asked.{feed_of, rolling_of};
ghost use mathlib.Core.List.{IsPrefix};
ghost use Rattle.flow_shell.specs.Fed.{EndsBy, EndsSo};
ghost use Rattle.flow_shell.specs.Replies.{AreAnswered, IsAnswered, IsBegun, IsLineReplied, IsReply};
ghost use Rattle.flow_shell.specs.Replies.{IsSettled};
ghost use Rattle.flow_shell.specs.Endings.{end_status, end_text, IsUnanswered, RollsAsked};
ghost use Rattle.flow_commands.specs.declared.plan.InputKind.{InputKind as Kind};
ghost use Rattle.flow_feed.specs.declared.batch.Fed.{Fed as FedFile};

use crate::asked::ShellRequest;
use crate::board::{Board, Ends};
use crate::feeding::feed_one;
use crate::finishing::{DONE, NO_MEMORY, WITHOUT_MEMORY, answer_text, end_answer};
use crate::lines::Lines;
use crate::losses::answer_losses;
use crate::querying::{Asking, answer_query};
use crate::rolling::roll_files;
use crate::telling::tell_ended;
use flow_archive::ArchiveError;
use flow_commands::{ArchiveRefusal, InputKind};
use flow_disk::{Disk, Faults};
use flow_report::{Patience, write_patiently};
use flow_roller::{Bell, Keeping};
use flow_shared::{Naming, SharedArchive};
use std::alloc::{AllocError, AllocGlobal, Global};
use std::fs::Files;
use std::io::{BufRead, Read, Write};
use std::marker::Brand;
use std::sync::Wait;
use std::thread;
use std::thread::{Scope, Threads};

/// The status of a line that is no request.
const WRONG_LINE: u8 = 2;

/// What a line that is no request is answered.
const WRONG_REQUEST: &str =
    "refused no request: one of feed FILE [datagrams], totals FROM TO, flows FROM TO, message N, check, \
     losses, keep N, merge N, wait, quit\n";

/// A File is fed from its first message on.
const FROM_FIRST: InputKind = InputKind::File(0);

/// The status of an answer that is refused for what it asks.
const REFUSED: u8 = 1;

/// The status where requests can't be read.
const UNREAD: u8 = 3;

/// What is answered where requests can't be read.
const UNREADABLE: &str = "refused 31 Read\n";

/// What `feed` is answered where 8 Files are fed.
const NO_PLACE: &str = "refused 8 Files are fed\n";

/// The line for the File of this number, which is fed from now on.
fn began_line(alloc: Global, number: u64) -> Result<String, AllocError>
    ensures { IfOk result (λ line. string_bytes line ≡ began_line number) }
{
    format!(in alloc; "began {number}\n")
}

/// Begins to feed the File at a path, by a thread of its own; where none can be made it is fed before the answer. The
/// answer is `began N`.
#[tactic(auto, using(crate::proofs::Unanswered::written))]
fn begin_feed<
    's,
    E: 's,
    H: Files + AllocGlobal + Clone + Drop + Threads + Wait + Send + Sync,
    D: Disk + Send,
    J: Naming + Send + Sync,
    K: Keeping + Send + Sync,
    B: Ends + Send + Sync,
    W: Write,
>(
    scope: &Scope<'s, E>,
    rt: &'s H,
    alloc: Global,
    shared: &'s SharedArchive<D, J, H>,
    bell: &'s Bell<K>,
    board: &'s Board<B>,
    limit: u32,
    kind: InputKind,
    path: &str,
    output: &mut W,
) -> Result<(), ArchiveRefusal>
where
    H::File: Send + Sync,
    H::Dir: Send + Sync,
    D::Sealed: Send + Sync,
    requires asked { ∥ B.to_feed path.now kind ∥₁ }
    requires said { (number : ℕ) (fed : FedFile) → EndsBy D.Disk J.opening kind fed → ∥ B.said number fed ∥₁ }
    ensures begun { OnOk result (IsBegun (W.contents output.old) (W.contents output.new)) }
    ensures unanswered { IfErr result IsUnanswered }
{
    let Ok(path) = String::from_str(alloc, path) else {
        return answer_text(NO_MEMORY, WITHOUT_MEMORY, output);
    };
    let Some(number) = board.begin(rt) else {
        return answer_text(NO_PLACE, REFUSED, output);
    };
    match scope.spawn(
        move ||
            requires asked { ∥ B.to_feed (string_bytes path) kind ∥₁ }
            requires said { (fed : FedFile) → EndsBy D.Disk J.opening kind fed → ∥ B.said number fed ∥₁ }
        { feed_one(rt, shared, bell, board, limit, kind, number, path) },
    ) {
        Ok(_) => {}
        Err(refused) => (refused.value)(),
    }
    let Ok(line) = began_line(alloc, number) else {
        return Err(ArchiveRefusal::OutOfMemory);
    };
    answer_text(line.as_str(), DONE, output)
}

/// How the requests ended.
#[derive(Clone, Copy)]
enum End {
    /// The input has no more of them.
    OfInput,
    /// It was asked for.
    Quit,
    /// Reading failed.
    Unread,
}

/// Waits until no File is fed, and writes the lines of those that have ended.
#[tactic(auto, using(crate::proofs::Unanswered::written, crate::proofs::Unanswered::told))]
fn answer_wait<B: Ends, H: Wait, W: Write>(
    rt: &H,
    alloc: Global,
    board: &Board<B>,
    output: &mut W,
) -> Result<(), ArchiveRefusal>
    ensures settled { OnOk result (IsSettled B.said (W.contents output.old) (W.contents output.new)) }
    ensures unanswered { IfErr result IsUnanswered }
{
    board.wait(rt);
    match tell_ended(rt, alloc, board, output) {
        Ok(()) => end_answer(DONE, output),
        Err(refusal) => Err(refusal),
    }
}

/// Answers a request, or a line that is none. To `quit` there is no answer before all Files have ended.
#[tactic(auto, using(crate::proofs::Unanswered::written))]
fn answer_request<
    's,
    E: 's,
    H: Files + AllocGlobal + Clone + Drop + Threads + Wait + Send + Sync,
    D: Disk + Send,
    J: Naming + Send + Sync,
    K: Keeping + Send + Sync,
    B: Ends + Send + Sync,
    W: Write,
>(
    scope: &Scope<'s, E>,
    rt: &'s H,
    alloc: Global,
    shared: &'s SharedArchive<D, J, H>,
    bell: &'s Bell<K>,
    board: &'s Board<B>,
    limit: u32,
    asking: &mut Asking<D::Sealed, J>,
    request: Option<ShellRequest<'_>>,
    output: &mut W,
) -> Result<(), ArchiveRefusal>
where
    H::File: Send + Sync,
    H::Dir: Send + Sync,
    D::Sealed: Send + Sync,
    requires said { (number : ℕ) (fed : FedFile) → EndsSo D.Disk J.opening B.to_feed fed → ∥ B.said number fed ∥₁ }
    requires asked { (any : Asked) → option_and_then rolling_of request ≡ Some any → ∥ K.asked any ∥₁ }
    requires to_feed { (path : List ℕ) (kind : Kind) → option_and_then feed_of request ≡ Some (path, kind)
        → ∥ B.to_feed path kind ∥₁ }
    ensures later { IsPrefix asking.old.reader asking.new.reader }
    ensures width { asking.new.width ≡ asking.old.width }
    ensures replied { OnOk result (IsReply B.said B.had
        (IsAnswered J.honest J.opening asking.old.width asking.new.reader) request.entry (W.contents output.old)
        (W.contents output.new)) }
    ensures unanswered { IfErr result IsUnanswered }
{
    match request {
        None => answer_text(WRONG_REQUEST, WRONG_LINE, output),
        Some(ShellRequest::Quit) => Ok(()),
        Some(ShellRequest::Ask(query)) => answer_query(rt, alloc, asking, &query, output),
        Some(ShellRequest::Keep(keep)) => {
            bell.set_keep(rt, keep);
            end_answer(DONE, output)
        }
        Some(ShellRequest::Merge(keep)) => {
            bell.set_merge(rt, Some(keep));
            end_answer(DONE, output)
        }
        Some(ShellRequest::Losses) => answer_losses(rt, alloc, board, output),
        Some(ShellRequest::Wait) => answer_wait(rt, alloc, board, output),
        Some(ShellRequest::Feed(file)) => begin_feed(
            scope, rt, alloc, shared, bell, board, limit, FROM_FIRST, file.path, output,
        ),
        Some(ShellRequest::Collect(file)) => begin_feed(
            scope,
            rt,
            alloc,
            shared,
            bell,
            board,
            limit,
            InputKind::Datagrams,
            file.path,
            output,
        ),
    }
}

/// Writes the lines of the Files that have ended, and answers the line at hand; whether that was `quit`.
#[tactic(auto, using(crate::proofs::Unanswered::told))]
fn answer_line<
    's,
    E: 's,
    H: Files + AllocGlobal + Clone + Drop + Threads + Wait + Send + Sync,
    D: Disk + Send,
    J: Naming + Send + Sync,
    K: Keeping + Send + Sync,
    B: Ends + Send + Sync,
    I: BufRead + Drop,
    W: Write,
>(
    scope: &Scope<'s, E>,
    rt: &'s H,
    alloc: Global,
    shared: &'s SharedArchive<D, J, H>,
    bell: &'s Bell<K>,
    board: &'s Board<B>,
    limit: u32,
    asking: &mut Asking<D::Sealed, J>,
    lines: &Lines<K, B, I>,
    output: &mut W,
) -> Result<bool, ArchiveRefusal>
where
    H::File: Send + Sync,
    H::Dir: Send + Sync,
    D::Sealed: Send + Sync,
    requires { (number : ℕ) (fed : FedFile) → EndsSo D.Disk J.opening B.to_feed fed → ∥ B.said number fed ∥₁ }
    ensures later { IsPrefix asking.old.reader asking.new.reader }
    ensures width { asking.new.width ≡ asking.old.width }
    ensures replied { IfOk result (λ quits. IsLineReplied B.said B.had
        (IsAnswered J.honest J.opening asking.old.width asking.new.reader) lines.now.line.items quits
        (W.contents output.old) (W.contents output.new)) }
    ensures unanswered { IfErr result IsUnanswered }
{
    tell_ended(rt, alloc, board, output)?;
    let request = lines.request();
    let is_quit = matches!(request, Some(ShellRequest::Quit));
    answer_request(
        scope, rt, alloc, shared, bell, board, limit, asking, request, output,
    )?;
    Ok(is_quit)
}

/// Answers requests, up to the end of the input, or to `quit`.
fn serve<
    's,
    E: 's,
    H: Files + AllocGlobal + Clone + Drop + Threads + Wait + Send + Sync,
    D: Disk + Send,
    J: Naming + Send + Sync,
    K: Keeping + Send + Sync,
    B: Ends + Send + Sync,
    I: BufRead + Drop,
    W: Write,
>(
    scope: &Scope<'s, E>,
    rt: &'s H,
    alloc: Global,
    shared: &'s SharedArchive<D, J, H>,
    bell: &'s Bell<K>,
    board: &'s Board<B>,
    limit: u32,
    asking: &mut Asking<D::Sealed, J>,
    lines: &mut Lines<K, B, I>,
    output: &mut W,
) -> Result<End, ArchiveRefusal>
where
    H::File: Send + Sync,
    H::Dir: Send + Sync,
    D::Sealed: Send + Sync,
    requires { (number : ℕ) (fed : FedFile) → EndsSo D.Disk J.opening B.to_feed fed → ∥ B.said number fed ∥₁ }
    // Of an input whose octets are known: each line was answered in turn, up to its end, `quit`, or a failed read.
    ensures replied { IfSome (I.remaining lines.old.input) (λ octets. IsTrue lines.old.is_read
        → IfOk result (λ end. AreAnswered B.said B.had (IsAnswered J.honest J.opening asking.old.width) octets end
        asking.old.reader asking.new.reader (W.contents output.old) (W.contents output.new))) }
    ensures unanswered { IfErr result IsUnanswered }
{
    for _ in 0..u64::MAX {
        match lines.read() {
            Ok(true) => {}
            Ok(false) => return Ok(End::OfInput),
            Err(_) => return Ok(End::Unread),
        }
        if answer_line(
            scope, rt, alloc, shared, bell, board, limit, asking, lines, output,
        )? {
            return Ok(End::Quit);
        }
    }
    Ok(End::OfInput)
}

/// Ends the Files that are fed, and writes their lines; and the end of the answer to `quit`.
fn leave<B: Ends, H: Wait, W: Write>(
    rt: &H,
    alloc: Global,
    board: &Board<B>,
    end: End,
    output: &mut W,
) -> Result<u8, ArchiveRefusal>
    ensures status { IfOk result (λ status. status ≡ end_status end) }
    // The lines of Files that ended so, and what is written at the end.
    ensures written { OnOk result ((mid : Option (List ℕ)) × HasTold B.said (W.contents output.old) mid
        × Appends mid (W.contents output.new) (end_text end)) }
    ensures unanswered { IfErr result IsUnanswered }
    ensures most { IfOk result (λ status. status ≤ 5) }
    ensures other { IfOk result (λ status. status ≢ 2) }
{
    tell_ended(rt, alloc, board, output)?;
    match end {
        End::OfInput => Ok(DONE),
        End::Quit => {
            end_answer(DONE, output)?;
            Ok(DONE)
        }
        End::Unread => {
            write_patiently(output, UNREADABLE.as_bytes(), &mut Patience::new())?;
            Ok(UNREAD)
        }
    }
}

/// Answers requests while a thread rolls, and then ends all Files that are fed; where no thread can be made, this one
/// rolls after that. It answers the status, and the first refusal of the rolling.
pub(crate) fn serve_beside<
    H: Files + AllocGlobal + Clone + Drop + Threads + Wait + Send + Sync,
    D: Disk + Send,
    J: Naming + Send + Sync,
    K: Keeping + Send + Sync,
    I: BufRead + Drop,
    W: Write,
>(
    rt: &H,
    shared: &SharedArchive<D, J, H>,
    bell: &Bell<K>,
    limit: u32,
    asking: &mut Asking<D::Sealed, J>,
    lines: Lines<K, Brand, I>,
    output: &mut W,
) -> (Result<u8, ArchiveRefusal>, Option<ArchiveError>)
where
    H::File: Send + Sync,
    H::Dir: Send + Sync,
    D::Sealed: Send + Sync,
    ensures status { IfOk result.0 (λ status. (status ≤ 5) × (status ≢ 2)) }
    ensures unanswered { IfErr result.0 IsUnanswered }
    ensures rolled { ∥ RollsAsked D.Disk J.opening K.asked result.1 ∥₁ }
{
    let board: Board<Brand> = Board::new();
    let places = &board;
    let alloc = rt.alloc();
    thread::scope(
        thread::scope_env(),
        rt,
        move |scope| -> (Result<u8, ArchiveRefusal>, Option<ArchiveError>)
            requires { ⊤ }
            ensures status { IfOk result.0 (λ status. (status ≤ 5) × (status ≢ 2)) }
            ensures unanswered { IfErr result.0 IsUnanswered }
            ensures rolled { ∥ RollsAsked D.Disk J.opening K.asked result.1 ∥₁ }
        {
            let roller = scope.spawn(move || roll_files(
                rt,
                alloc,
                shared,
                bell,
                &mut Faults::new(),
            ));
            let mut lines = lines;
            let served = serve(
                scope, rt, alloc, shared, bell, places, limit, asking, &mut lines, output,
            );
            places.quit(rt);
            places.wait(rt);
            let status = match served {
                Ok(end) => leave(rt, alloc, places, end, output),
                Err(refusal) => Err(refusal),
            };
            bell.end(rt);
            let rolled = match roller {
                Ok(roller) => roller.join(rt),
                Err(refused) => (refused.value)(),
            };
            (status, rolled.refused)
        },
    )
}
