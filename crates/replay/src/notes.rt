// The starting note, and the calls on a note, whose first fields are transcript, cleaned text, starts, ends, shift.
ghost use Rattle.std.specs.Prelude.{◌<◌};

use crate::matches::published_alike;
use crate::ranges::on_range;
use buffers::Offset;
use note::NormalizedString;
use replayed_edits::publishing::on_publishing;
use replayed_pieces::pairs::on_pairs;
use replayed_pieces::pieces::{get_splits, split};
use replayed_pieces::slices::slice;
use replayed_pieces::told::are_columns;
use stored_answers::calls::{EditCall, NoteCall, PairsCall, PublishingCall};
use stored_answers::columns::{offsets, zeros};
use stored_answers::fields::{field, is_number, value};
use zulmyren::notes::{zulmyren_check_note, zulmyren_from_text};

// A note; the refusal.
fn check_note(case: &[u8], starts: &[Offset], ends: &[Offset]) -> bool {
    let refusal = zulmyren_check_note(&NormalizedString {
        original: field(case, 0),
        normalized: field(case, 1),
        starts,
        ends,
        original_shift: value(case, 4),
    });
    is_number(case, 5, refusal)
}

fn started(case: &[u8], starts: &mut [Offset], ends: &mut [Offset]) -> bool {
    let refusal = zulmyren_from_text(field(case, 0), starts, ends);
    are_columns(case, 3, refusal, starts, ends)
}

// A text, room for starts and ends; the refusal, the two columns.
pub fn from_text(case: &[u8]) -> bool {
    let mut starts = zeros();
    let mut ends = zeros();
    let s = offsets(case, 1, &mut starts);
    let e = offsets(case, 2, &mut ends);
    started(case, &mut starts[..s], &mut ends[..e])
}

// The first of the fields with a call's buffers.
fn buffers_at(call: PublishingCall) -> usize
    ensures { result < 80 }
{
    match call {
        PublishingCall::Clear => 5,
        PublishingCall::Edit(edit) => match edit {
            EditCall::Redact => 3,
            EditCall::Lowercase => 5,
            EditCall::Map | EditCall::Filter | EditCall::Append | EditCall::Prepend => 6,
            EditCall::Replace | EditCall::Transform => 7,
            EditCall::TransformRange => 10,
            EditCall::ReplaceByEdits => 13,
        },
    }
}

// The first of the fields with a list of pairs.
fn pairs_at(call: PairsCall) -> usize
    ensures { result < 90 }
{
    match call {
        PairsCall::CharOffsetsAll => 1,
        PairsCall::ConvertAll => 6,
    }
}

// One of the calls on a note; its columns are read already.
fn called(call: NoteCall, case: &[u8], starts: &[Offset], ends: &[Offset]) -> bool {
    match call {
        NoteCall::CheckNote => check_note(case, starts, ends),
        NoteCall::PublishedAlike => published_alike(case, starts, ends),
        NoteCall::Slice => slice(case, starts, ends),
        NoteCall::Split => split(case, starts, ends),
        NoteCall::GetSplits => get_splits(case, starts, ends),
        NoteCall::Range(range) => on_range(range, case, starts, ends),
        NoteCall::Pairs(pairs) => on_pairs(pairs, case, pairs_at(pairs), starts, ends),
        NoteCall::Publishing(publishing) => {
            on_publishing(publishing, case, buffers_at(publishing), starts, ends)
        }
    }
}

// A call on a note, or one that takes no columns.
pub fn on_note(call: NoteCall, case: &[u8]) -> bool {
    let mut starts = zeros();
    let mut ends = zeros();
    let s = offsets(case, 2, &mut starts);
    let e = offsets(case, 3, &mut ends);
    called(call, case, &starts[..s], &ends[..e])
}
