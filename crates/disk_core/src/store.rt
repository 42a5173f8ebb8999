use std::fmt;

/// A file of a database.
#[derive(Clone, Copy, Debug, PartialEq, Eq)]
pub enum FileName {
    AreaA,
    AreaB,
    /// The file of a log lane that has its even generations, or its odd ones.
    Lane { lane: u16, odd: bool },
}

impl fmt::Display for FileName {
    fn fmt<W: fmt::Write>(&self, f: &mut fmt::Formatter<W>) -> fmt::Result {
        match self {
            FileName::AreaA => write!(f, "area.a"),
            FileName::AreaB => write!(f, "area.b"),
            FileName::Lane { lane, odd: false } => write!(f, "lane{lane}.even"),
            FileName::Lane { lane, odd: true } => write!(f, "lane{lane}.odd"),
        }
    }
}

/// The two files of a log lane.
#[derive(Drop)]
pub struct LaneDisks<D> {
    pub even: D,
    pub odd: D,
}

/// The files of a database: two areas for its base, and the files of its log lanes.
#[derive(Drop)]
pub struct Store<D> {
    pub area_a: D,
    pub area_b: D,
    pub lanes: Vec<LaneDisks<D>>,
}
