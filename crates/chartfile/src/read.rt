// Taking one record off the front of a file: its kind, its fields, and the rest of the file.
#![tactic(auto, using(crate::proofs::Fronts::too_short))]

ghost use Rattle.std.specs.Prelude.{◌≡◌, ◌<◌, ◌≤◌, ◌++◌, length, slice_index, MatchResult};
ghost use Rattle.chartfile.specs.Records.{record_bytes, edit_bytes, monitor_edit_bytes};
ghost use Rattle.chartfile.specs.Files.{Unreadable};

use crate::kind;
use crate::record::Record;
use hierarchy::Refusal;
use monitor::MonitorEdit;
use sheet::Edit;

// The first record and the bytes behind it; or why there is none.
pub(crate) fn take(bytes: &[u8]) -> Result<(Record, &[u8]), Refusal>
    requires { 0 < length bytes.now }
    ensures { MatchResult result (λ v. bytes.now ≡ record_bytes v.0 ++ v.1.now) (λ e. Unreadable bytes.now e) }
{
    match bytes {
        [kind::BEGIN, structures, rest @ ..] => {
            let structures = usize::from(*structures);
            Ok((Record::Begin { structures }, rest))
        }
        [kind::NODE..=kind::LOOK, ..] => {
            let (edit, rest) = take_place(bytes)?;
            Ok((Record::Draw { edit }, rest))
        }
        [kind::EDGE..=kind::UNLEAVE, ..] => {
            let (edit, rest) = take_arrow(bytes)?;
            Ok((Record::Draw { edit }, rest))
        }
        [kind::STATE..=kind::ACCEPT, ..] => {
            let (edit, rest) = take_watch(bytes)?;
            Ok((Record::Watch { edit }, rest))
        }
        [kind::BEGIN] => Err(Refusal::CutRecord),
        _ => Err(Refusal::UnknownKind),
    }
}

// The edit of a place at the front, and the bytes behind it; or else it is cut short.
fn take_place(bytes: &[u8]) -> Result<(Edit, &[u8]), Refusal>
    requires least { 2 ≤ slice_index bytes.now 0 }
    requires greatest { slice_index bytes.now 0 ≤ 5 }
    ensures { MatchResult result (λ v. bytes.now ≡ edit_bytes v.0 ++ v.1.now) (λ e. Unreadable bytes.now e) }
{
    match bytes {
        [kind::NODE, i, look, rest @ ..] => {
            let i = usize::from(*i);
            Ok((Edit::Node { i, look: *look }, rest))
        }
        [kind::BOX, i, inner, rest @ ..] => {
            let [i, inner] = [*i, *inner].map(usize::from);
            Ok((Edit::Box { i, inner }, rest))
        }
        [kind::EXIT, i, p, rest @ ..] => {
            let [i, p] = [*i, *p].map(usize::from);
            Ok((Edit::Exit { i, p }, rest))
        }
        [kind::LOOK, i, p, look, rest @ ..] => {
            let [i, p] = [*i, *p].map(usize::from);
            Ok((Edit::Look { i, p, look: *look }, rest))
        }
        _ => Err(Refusal::CutRecord),
    }
}

// The edit of an edge or a leave at the front, and the bytes behind it; or else it is cut short.
fn take_arrow(bytes: &[u8]) -> Result<(Edit, &[u8]), Refusal>
    requires least { 6 ≤ slice_index bytes.now 0 }
    requires greatest { slice_index bytes.now 0 ≤ 9 }
    ensures { MatchResult result (λ v. bytes.now ≡ edit_bytes v.0 ++ v.1.now) (λ e. Unreadable bytes.now e) }
{
    match bytes {
        [kind::EDGE, i, p, w, rest @ ..] => {
            let [i, p, w] = [*i, *p, *w].map(usize::from);
            Ok((Edit::Edge { i, p, w }, rest))
        }
        [kind::LEAVE, i, b, e, w, rest @ ..] => {
            let [i, b, e, w] = [*i, *b, *e, *w].map(usize::from);
            Ok((Edit::Leave { i, b, e, w }, rest))
        }
        [kind::UNEDGE, i, p, w, rest @ ..] => {
            let [i, p, w] = [*i, *p, *w].map(usize::from);
            Ok((Edit::Unedge { i, p, w }, rest))
        }
        [kind::UNLEAVE, i, b, e, w, rest @ ..] => {
            let [i, b, e, w] = [*i, *b, *e, *w].map(usize::from);
            Ok((Edit::Unleave { i, b, e, w }, rest))
        }
        _ => Err(Refusal::CutRecord),
    }
}

// The edit of the monitor at the front, and the bytes behind it; or else it is cut short.
fn take_watch(bytes: &[u8]) -> Result<(MonitorEdit, &[u8]), Refusal>
    requires least { 16 ≤ slice_index bytes.now 0 }
    requires greatest { slice_index bytes.now 0 ≤ 18 }
    ensures { MatchResult result (λ v. bytes.now ≡ monitor_edit_bytes v.0 ++ v.1.now) (λ e. Unreadable bytes.now e) }
{
    match bytes {
        [kind::STATE, rest @ ..] => Ok((MonitorEdit::State, rest)),
        [kind::STEP, q, care, value, r, rest @ ..] => {
            let [q, r] = [*q, *r].map(usize::from);
            let (care, value) = (*care, *value);
            Ok((MonitorEdit::Step { q, care, value, r }, rest))
        }
        [kind::ACCEPT, q, rest @ ..] => {
            let q = usize::from(*q);
            Ok((MonitorEdit::Accept { q }, rest))
        }
        _ => Err(Refusal::CutRecord),
    }
}
