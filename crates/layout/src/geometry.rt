//! How a card is divided: headers, log, root page, data pages.
ghost use Rattle.std.specs.Prelude.{◌≡◌, ◌+◌, ◌<◌, ◌≤◌, IsTrue, ◌↔◌, IfSome, IsSome};

/// The least and the most sectors of a log.
pub const LEAST_LOG: u32 = 9;

pub const MOST_LOG: u32 = 64;

/// The most sectors of a card.
pub const MOST_SECTORS: usize = 1024;

/// The first sector of the log, behind the two headers.
pub const LOG: u32 = 2;

// Beside its log a card has at least two headers, the root page and a data page.
const LEAST_REST: u32 = 4;

/// A card's count of sectors and the length of its log, within the limits of the format.
// The format stores the log's length in two bytes and a sector's number in four.
#[derive(Clone, Copy, Debug, PartialEq, Eq)]
pub struct Geometry {
    pub sectors: u32,
    pub log: u16,
    ghost least_log: { 9 ≤ log },
    ghost most_log: { log ≤ 64 },
    ghost room: { log + 4 ≤ sectors },
    ghost most: { sectors ≤ 1024 },
}

impl Geometry {
    ghost use Rattle.layout.specs.Geometries.{Within, root_of, IsPage};

    /// The division of a card of so many sectors with a log of this length, if they are within the limits.
    // The length comes as a caller has it, in 32 bits: cut to 16 before it is looked at, 65,545 would pass for 9.
    pub fn new(sectors: u32, log: u32) -> Option<Geometry>
        ensures within { IsSome result ↔ Within sectors log }
        ensures value { IfSome result (λ g. (g.sectors ≡ sectors) × (g.log ≡ log)) }
    {
        let log_fits = (LEAST_LOG..=MOST_LOG).contains(&log);
        if log_fits && log + LEAST_REST <= sectors && sectors as usize <= MOST_SECTORS {
            Some(Geometry {
                sectors,
                log: log as u16,
            })
        } else {
            None
        }
    }

    /// The sector of the root page; the data pages follow it.
    pub fn root(self) -> u32
        ensures { result ≡ root_of self }
    {
        LOG + u32::from(self.log)
    }

    /// Whether a page has its home in this sector.
    pub fn has_page(self, sector: u32) -> bool
        ensures { IsTrue result ↔ IsPage self sector }
    {
        (self.root()..self.sectors).contains(&sector)
    }
}
