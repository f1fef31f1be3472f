// Records stored as a file: the kind and the fields of each, a byte each.
// A field that fits no byte is refused, and then there is no file.
ghost use Rattle.std.specs.Prelude.{◌≡◌, ◌∷◌, ◌++◌, MatchResult};
ghost use Rattle.chartfile.specs.declared.store.Unstored.TheVariants.{Field, NoMemory};
ghost use Rattle.chartfile.specs.Records.{record_bytes, edit_bytes, monitor_edit_bytes};
ghost use Rattle.chartfile.specs.Stored.{Stored, Unstorable, Unpushed};

use crate::record::Record;
use crate::{LONGEST, kind};
use monitor::MonitorEdit;
use sheet::Edit;
use std::alloc::{AllocFailed, Global};
use std::num::TryFromIntError;

// Why records are not stored: a field above 255, too many bytes for a file, or no memory.
#[derive(Clone, Copy, PartialEq, Eq, Debug)]
pub enum Unstored {
    Field,
    TooLong,
    NoMemory,
}

impl From<TryFromIntError> for Unstored {
    ghost from_gives = { λ _ e. e ≡ Field };

    fn from(_error: TryFromIntError) -> Unstored {
        Unstored::Field
    }
}

impl<T: Drop> From<AllocFailed<T>> for Unstored {
    ghost from_gives = { λ _ e. e ≡ NoMemory };

    fn from(_error: AllocFailed<T>) -> Unstored {
        Unstored::NoMemory
    }
}

// The file that has these records.
pub fn write(heap: Global, records: &[Record]) -> Result<Vec<u8>, Unstored>
    ensures { MatchResult result (λ v. Stored records.now v.items) (λ e. Unstorable records.now e) }
{
    let mut out = Vec::new(heap);
    for record in records {
        push_record(&mut out, *record)?;
    }
    if out.len() > LONGEST {
        return Err(Unstored::TooLong);
    }
    Ok(out)
}

fn push_record(out: &mut Vec<u8>, record: Record) -> Result<(), Unstored>
    ensures { MatchResult result (λ _. out.new.items ≡ out.old.items ++ record_bytes «record») (λ e. Unpushed (record_bytes «record») e) }
{
    match record {
        Record::Begin { structures } => push(out, kind::BEGIN, &[structures]),
        Record::Draw { edit } => push_edit(out, edit),
        Record::Watch { edit } => push_monitor_edit(out, edit),
    }
}

fn push_edit(out: &mut Vec<u8>, edit: Edit) -> Result<(), Unstored>
    ensures { MatchResult result (λ _. out.new.items ≡ out.old.items ++ edit_bytes edit) (λ e. Unpushed (edit_bytes edit) e) }
{
    match edit {
        Edit::Node { i, look } => push(out, kind::NODE, &[i, usize::from(look)]),
        Edit::Box { i, inner } => push(out, kind::BOX, &[i, inner]),
        Edit::Exit { i, p } => push(out, kind::EXIT, &[i, p]),
        Edit::Look { i, p, look } => push(out, kind::LOOK, &[i, p, usize::from(look)]),
        Edit::Edge { i, p, w } => push(out, kind::EDGE, &[i, p, w]),
        Edit::Leave { i, b, e, w } => push(out, kind::LEAVE, &[i, b, e, w]),
        Edit::Unedge { i, p, w } => push(out, kind::UNEDGE, &[i, p, w]),
        Edit::Unleave { i, b, e, w } => push(out, kind::UNLEAVE, &[i, b, e, w]),
    }
}

fn push_monitor_edit(out: &mut Vec<u8>, edit: MonitorEdit) -> Result<(), Unstored>
    ensures { MatchResult result (λ _. out.new.items ≡ out.old.items ++ monitor_edit_bytes edit) (λ e. Unpushed (monitor_edit_bytes edit) e) }
{
    match edit {
        MonitorEdit::State => push(out, kind::STATE, &[]),
        MonitorEdit::Step { q, care, value, r } => {
            let (care, value) = (usize::from(care), usize::from(value));
            push(out, kind::STEP, &[q, care, value, r])
        }
        MonitorEdit::Accept { q } => push(out, kind::ACCEPT, &[q]),
    }
}

// One record's kind, and then its fields.
fn push(out: &mut Vec<u8>, kind: u8, fields: &[usize]) -> Result<(), Unstored>
    ensures { MatchResult result (λ _. out.new.items ≡ out.old.items ++ kind ∷ fields.now) (λ e. Unpushed (kind ∷ fields.now) e) }
{
    out.push(kind)?;
    for field in fields {
        out.push(u8::try_from(*field)?)?;
    }
    Ok(())
}
