// What the cells of a wider net are, and where those of the net stand.
use aq_base::List;
use rowed::RowCell;

/// What a cell of a wider net is: the cell `cell` of row `row` of the net; or, where `carried` has a number, an added
/// buffer, which carries the output of this number of that cell.
#[derive(Clone, Copy)]
pub struct Mark {
    pub row: u32,
    pub cell: u32,
    pub carried: Option<u32>,
}

/// Where a cell stands: its row, and its place in that row.
#[derive(Clone, Copy)]
pub struct Place {
    pub row: u32,
    pub cell: u32,
}

/// Rows of cells that are meant to be wider than a net, with a slot for each cell. Nothing is known of them. There is
/// the row that each row of the net has become, the place of each cell of the net, and a mark for each cell of these
/// rows.
#[derive(Drop)]
pub struct WideDraft {
    pub rows: List<List<RowCell>>,
    pub slots: List<List<u32>>,
    pub became: List<u32>,
    pub places: List<List<Place>>,
    pub marks: List<List<Mark>>,
}
