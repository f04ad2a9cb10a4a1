// The calls that are replayed, by what they take. Some are passed by their numbers too: a call's number is its place in
// `CALLS`.
ghost use Rattle.std.specs.Prelude.{◌≡◌};
ghost use Rattle.stored_answers.specs.Calls.{edit_call, pairs_call, publishing_call};

// One on a note and a range.
#[derive(Clone, Copy)]
pub enum RangeCall {
    ConvertOffsets,
    GetRange,
    GetRangeOriginal,
}

// One on a list of pairs.
#[derive(Clone, Copy)]
pub enum PairsCall {
    CharOffsetsAll,
    ConvertAll,
}

// Any number but that of `char_offsets_all` is taken for `convert_all`.
impl From<u8> for PairsCall {
    ghost from_gives = { λ number call. call ≡ pairs_call number };

    fn from(number: u8) -> PairsCall {
        match number {
            3 => PairsCall::CharOffsetsAll,
            _ => PairsCall::ConvertAll,
        }
    }
}

// One that publishes a note, and answers with its length.
#[derive(Clone, Copy)]
pub enum EditCall {
    Replace,
    Redact,
    TransformRange,
    Transform,
    Map,
    Filter,
    Append,
    Prepend,
    Lowercase,
    ReplaceByEdits,
}

// Any number but those of the others is taken for `prepend`.
impl From<u8> for EditCall {
    ghost from_gives = { λ number call. call ≡ edit_call number };

    fn from(number: u8) -> EditCall {
        match number {
            10 => EditCall::Replace,
            14 => EditCall::Redact,
            19 => EditCall::TransformRange,
            20 => EditCall::Transform,
            21 => EditCall::Map,
            22 => EditCall::Filter,
            23 => EditCall::Append,
            26 => EditCall::Lowercase,
            27 => EditCall::ReplaceByEdits,
            _ => EditCall::Prepend,
        }
    }
}

// One that publishes a note: clearing answers with two lengths.
#[derive(Clone, Copy)]
pub enum PublishingCall {
    Clear,
    Edit(EditCall),
}

impl From<u8> for PublishingCall {
    ghost from_gives = { λ number call. call ≡ publishing_call number };

    fn from(number: u8) -> PublishingCall {
        match number {
            25 => PublishingCall::Clear,
            _ => PublishingCall::Edit(EditCall::from(number)),
        }
    }
}

// One on a note.
#[derive(Clone, Copy)]
pub enum NoteCall {
    CheckNote,
    PublishedAlike,
    Slice,
    Split,
    GetSplits,
    Range(RangeCall),
    Pairs(PairsCall),
    Publishing(PublishingCall),
}

#[derive(Clone, Copy)]
pub enum Call {
    WellFormed,
    LetterCount,
    CharOffsets,
    FromText,
    Part,
    FindMatches,
    Pieces,
    OnNote(NoteCall),
}

// All of them, in the order of their names in the file `calls`.
pub const CALLS: [Call; 28] = [
    Call::WellFormed,
    Call::LetterCount,
    Call::CharOffsets,
    Call::OnNote(NoteCall::Pairs(PairsCall::CharOffsetsAll)),
    Call::FromText,
    Call::OnNote(NoteCall::CheckNote),
    Call::OnNote(NoteCall::Range(RangeCall::ConvertOffsets)),
    Call::OnNote(NoteCall::Range(RangeCall::GetRange)),
    Call::OnNote(NoteCall::Range(RangeCall::GetRangeOriginal)),
    Call::OnNote(NoteCall::Pairs(PairsCall::ConvertAll)),
    Call::OnNote(NoteCall::Publishing(PublishingCall::Edit(EditCall::Replace))),
    Call::OnNote(NoteCall::PublishedAlike),
    Call::Part,
    Call::FindMatches,
    Call::OnNote(NoteCall::Publishing(PublishingCall::Edit(EditCall::Redact))),
    Call::OnNote(NoteCall::Slice),
    Call::OnNote(NoteCall::Split),
    Call::OnNote(NoteCall::GetSplits),
    Call::Pieces,
    Call::OnNote(NoteCall::Publishing(PublishingCall::Edit(EditCall::TransformRange))),
    Call::OnNote(NoteCall::Publishing(PublishingCall::Edit(EditCall::Transform))),
    Call::OnNote(NoteCall::Publishing(PublishingCall::Edit(EditCall::Map))),
    Call::OnNote(NoteCall::Publishing(PublishingCall::Edit(EditCall::Filter))),
    Call::OnNote(NoteCall::Publishing(PublishingCall::Edit(EditCall::Append))),
    Call::OnNote(NoteCall::Publishing(PublishingCall::Edit(EditCall::Prepend))),
    Call::OnNote(NoteCall::Publishing(PublishingCall::Clear)),
    Call::OnNote(NoteCall::Publishing(PublishingCall::Edit(EditCall::Lowercase))),
    Call::OnNote(NoteCall::Publishing(PublishingCall::Edit(EditCall::ReplaceByEdits))),
];
