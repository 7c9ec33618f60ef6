// Where things stand on the page, in units of the picture: the grid with its labels on the left, the legend on the right of it.
ghost use Rattle.std.specs.Prelude.{◌≡◌, ◌≤◌, ◌||◌, nat_lt};

use floor::Floor;

// The sizes of a floor's page. The cells of a floor of more than 16 columns or rows are drawn smaller.
#[derive(Clone, Copy)]
pub struct Page {
    pub small: bool,
    pub columns: u16,
    pub rows: u16,
    pub horizon: u16,
    pub carriers: u16,
}

impl From<Floor> for Page {
    ghost from_gives = { λ f p. p ≡ record {
      small = nat_lt 16 f.width || nat_lt 16 f.height;
      columns = f.width;
      rows = f.height;
      horizon = f.horizon;
      carriers = f.carriers;
    } };

    // The page of a floor.
    fn from(f: Floor) -> Page {
        Page {
            small: 16 < f.width || 16 < f.height,
            columns: f.width,
            rows: f.height,
            horizon: f.horizon,
            carriers: f.carriers,
        }
    }
}

impl Page {
    // The side of a cell.
    pub fn side(self) -> usize
        ensures { result ≤ 40 }
    {
        if self.small { 24 } else { 40 }
    }

    // The length of k cells.
    pub fn cells(self, k: u16) -> usize
        ensures { result ≤ 2621400 }
    {
        if self.small {
            24 * k as usize
        } else {
            40 * k as usize
        }
    }

    // Where column or row k begins, behind the labels; and its middle.
    pub fn edge(self, k: u16) -> usize
        ensures { result ≤ 2621428 }
    {
        28 + self.cells(k)
    }

    pub fn middle(self, k: u16) -> usize
        ensures { result ≤ 2621448 }
    {
        self.edge(k) + self.side() / 2
    }

    // The line of a trace in column or row k, beside those of the other carriers.
    pub fn track(self, k: u16, carrier: usize) -> usize
        requires { carrier ≤ 8 }
        ensures { result ≤ 2621480 }
    {
        if self.small {
            self.edge(k) + 8 + carrier
        } else {
            self.edge(k) + 13 + 2 * carrier
        }
    }

    // The column and the row of a cell.
    pub fn column_of(self, c: u16) -> u16 {
        c.checked_rem(self.columns).unwrap_or(0)
    }

    pub fn row_of(self, c: u16) -> u16 {
        c.checked_div(self.columns).unwrap_or(0)
    }

    // The corner of a cell; its middle; the place of a trace in it, beside those of the other carriers.
    pub fn corner_of(self, c: u16) -> (usize, usize)
        ensures { (result.0 ≤ 2621428) × (result.1 ≤ 2621428) }
    {
        (self.edge(self.column_of(c)), self.edge(self.row_of(c)))
    }

    pub fn middle_of(self, c: u16) -> (usize, usize)
        ensures { (result.0 ≤ 2621448) × (result.1 ≤ 2621448) }
    {
        (self.middle(self.column_of(c)), self.middle(self.row_of(c)))
    }

    pub fn track_of(self, c: u16, carrier: usize) -> (usize, usize)
        requires { carrier ≤ 8 }
        ensures { (result.0 ≤ 2621480) × (result.1 ≤ 2621480) }
    {
        (
            self.track(self.column_of(c), carrier),
            self.track(self.row_of(c), carrier),
        )
    }

    // Where the legend begins.
    pub fn legend(self) -> usize
        ensures { result ≤ 2621460 }
    {
        self.edge(self.columns) + 24
    }

    // The width of the page, and its height: that of the grid or of the legend.
    pub fn width(self) -> usize {
        self.legend() + 190
    }

    pub fn height(self) -> usize {
        let grid = self.edge(self.rows) + 16;
        let listed = 66 + 30 * self.carriers as usize;
        grid.max(listed)
    }

    // The time of the whole animation in milliseconds, half a second a beat, with two at the end.
    pub fn duration(self) -> usize {
        500 * (self.horizon as usize + 2)
    }
}

// A line of the legend, the beat's being line 0.
pub fn legend_line(k: usize) -> usize
    requires { k ≤ 64 }
    ensures { (50 ≤ result) × (result ≤ 2000) }
{
    50 + 30 * k
}
