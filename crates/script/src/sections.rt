use row_types::{Block, Items};

/// A section of a script: its blocks in their order.
#[derive(Debug, Drop)]
pub struct Section {
    pub blocks: Items<Block>,
}

/// A script: the section that is run alone before the others, where there is one, and the sessions, which are
/// numbered from 1 on and are at most 16.
///
/// The leading CREATE statements of the setup are blocks of
/// one statement here, as all its statements outside of BEGIN.
#[derive(Debug, Drop)]
pub struct Script {
    pub setup: Option<Section>,
    pub sessions: Items<Section>,
}
