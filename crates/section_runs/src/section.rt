// A section before its run and after it.
use plain_model::Reply;
use row_types::{Block, Items};

/// What stops the blocks of a section.
#[derive(Clone, Copy, Debug, PartialEq, Eq, Drop)]
pub enum Halt {
    /// Nothing did.
    Done,
    /// The disk failed.
    Stopped,
    /// Memory ran out.
    OutOfMemory,
}

/// A section that is ready to be run.
#[derive(Drop)]
pub struct ReadySection {
    /// The number of its session. `None`: it is the setup.
    pub number: Option<u64>,
    /// The replies to its leading statements, one for each.
    pub leads: Items<Reply>,
    /// Its blocks. The first are the leading statements, and aren't run.
    pub blocks: Items<Block>,
}

/// A section with its answers: the first of its blocks have replies, and what stopped the others.
#[derive(Drop)]
pub struct SectionRun {
    pub section: ReadySection,
    /// The replies to the first blocks behind the leading statements, block by block.
    pub said: Items<Items<Reply>>,
    pub halt: Halt,
}

impl ReadySection {
    ghost use Rattle.std.specs.Prelude.{◌≡◌};
    ghost use Rattle.section_runs.specs.Sections.{to_run};

    /// The blocks that are run: those behind the leading statements.
    pub fn to_run(&self) -> &[Block]
        ensures { result.now ≡ to_run self.now }
    {
        let leads = self.leads.len();
        let blocks = self.blocks.as_slice();
        if leads > blocks.len() {
            return &[];
        }
        &blocks[leads..]
    }
}

impl SectionRun {
    ghost use Rattle.std.specs.Prelude.{◌≡◌};
    ghost use Rattle.section_runs.specs.Sections.{left_in};

    /// The blocks that have no replies.
    pub fn left(&self) -> &[Block]
        ensures { result.now ≡ left_in self.now }
    {
        let said = self.said.len();
        let blocks = self.section.to_run();
        if said > blocks.len() {
            return &[];
        }
        &blocks[said..]
    }
}

impl Halt {
    ghost use Rattle.std.specs.Prelude.{◌≡◌};
    ghost use Rattle.section_runs.specs.Sections.{worse};

    /// What stops two parts of a run: a fault of the disk before memory that ran out.
    pub(crate) fn worse(self, other: Halt) -> Halt
        ensures { result ≡ worse self other }
    {
        match (self, other) {
            (Halt::Done, other) => other,
            (Halt::Stopped, _) => Halt::Stopped,
            (Halt::OutOfMemory, Halt::Stopped) => Halt::Stopped,
            (Halt::OutOfMemory, _) => Halt::OutOfMemory,
        }
    }
}
