use crate::Settings;
use row_types::Schema;

/// What the head of an open area says.
#[derive(Debug, Drop)]
pub struct Header {
    pub generation: u64,
    pub settings: Settings,
    pub schema: Schema,
    /// How many images follow.
    pub count: u32,
}

/// Which page an image is, and its stamp: the greatest stamp of a change that the image has.
#[derive(Clone, Copy, Debug, PartialEq, Eq)]
pub struct ImageHead {
    pub table: u16,
    pub page: u32,
    pub stamp: u64,
}

impl Header {
    ghost use Rattle.std.specs.Prelude.{◌↔◌, IsTrue};
    ghost use Rattle.area_format.specs.Results.{IsUnder};

    /// Whether an image may be of that page: the table is one of the schema's, and the page is below the
    /// setting.
    pub(crate) fn admits(&self, head: ImageHead) -> bool
        ensures { IsTrue result ↔ IsUnder self.now head }
    {
        usize::from(head.table) < self.schema.tables().len() && head.page < self.settings.pages
    }
}

impl ImageHead {
    ghost use Rattle.std.specs.Prelude.{◌≡◌};
    ghost use Rattle.area_format.specs.AreaRead.{precedes};

    /// Whether it stands before another one: the least table comes first, and of a table the least page.
    pub(crate) fn precedes(self, later: ImageHead) -> bool
        ensures { result ≡ precedes self later }
    {
        self.table < later.table || self.table == later.table && self.page < later.page
    }
}
