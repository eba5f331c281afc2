// The layout of a table's records, decided by the version byte (SPECIFICATION 2.2; document 02, L4 and L9). Nothing else looks at the version.
ghost use Rattle.std.specs.Prelude.{◌≡◌};
ghost use Rattle.tables.specs.Layout.{layout_for};

// Which delays a record has: J alone, which is the latest delay, or the earliest and then the latest.
#[derive(Clone, Copy, Debug, PartialEq, Eq)]
pub enum DelayFields {
    Jitter,
    Pair,
}

#[derive(Clone, Copy, Debug, PartialEq, Eq)]
pub struct Layout {
    // does the reader know the version?
    pub known: bool,
    // the bytes of a task record
    pub size: usize,
    // the greatest number of tasks
    pub most: u32,
    pub delays: DelayFields,
}

// What each version decides. One that is not known has no record.
pub fn of(version: u8) -> Layout
    ensures { result ≡ layout_for version }
{
    match version {
        1 => Layout {
            known: true,
            size: 17,
            most: 32,
            delays: DelayFields::Jitter,
        },
        2 => Layout {
            known: true,
            size: 21,
            most: 32,
            delays: DelayFields::Pair,
        },
        3 => Layout {
            known: true,
            size: 21,
            most: 200,
            delays: DelayFields::Pair,
        },
        _ => Layout {
            known: false,
            size: 0,
            most: 0,
            delays: DelayFields::Jitter,
        },
    }
}
