use crate::board_access::{BoardAccess, BoardSwap};
use crate::field_access::{FieldAccess, FieldExchange, FieldUse};
use crate::mixed_access::MixedAccess;
use crate::record_access::RecordAccess;

/// What an access is about to do.
#[derive(Clone, Copy)]
pub enum AccessStage {
    /// Load the word of the header's page: it must be open.
    LooksAtRecord(RecordAccess),
    /// Load the header.
    LoadsHeader(RecordAccess),
    /// Load the word of the count's page, which is another: it must be open.
    LooksAtCount(MixedAccess),
    /// Load the count of the record's fields.
    LoadsCount(MixedAccess),
    /// Load the word of the field's page, which is another: it must be open.
    LooksAtField(FieldAccess, FieldUse),
    /// Load the field into this register.
    LoadsField(FieldAccess, u8),
    /// Store this in the field.
    StoresField(FieldAccess, u64),
    /// Load the field that is to be exchanged, and compare it.
    LoadsForCas(FieldAccess, FieldExchange),
    /// Exchange the field, from this word.
    ExchangesField(FieldAccess, FieldExchange, u64),
    /// Load the word of the board's page: it must be open.
    LooksAtBoard(BoardAccess),
    /// Load this word of the board into this register.
    LoadsBoard(u32, u8),
    /// Store in this word of the board.
    StoresBoard(u32, u64),
    /// Load the word of the board that is to be exchanged.
    LoadsForSwap(BoardSwap),
    /// Exchange the word of the board, from this one.
    SwapsBoard(BoardSwap, u64),
}
