// What the text of a statement is read as.
use plain_model::Refusal;
use sql_parse::Statement;

/// What a text is, where it stands.
#[derive(Drop)]
pub(crate) enum Read {
    Allowed(Statement),
    /// It is no statement, or one that isn't allowed there.
    Refused(Refusal),
}
