// The rows to which heights belong.
ghost use Rattle.std.specs.Prelude.{◌≡◌, ℕ, ◌≤◌, length};
ghost use Rattle.shape_extract.specs.Code.Edges.{Rises};
ghost use Rattle.text_report.specs.Code.Heights.{BelongsTo};

/// The row to which a height belongs, by the rising lower edges of the rows.
pub fn row_at(edges: &[i64], y: i64) -> usize
    requires { Rises edges.now }
    ensures row { (row : ℕ) → BelongsTo edges.now row y → result ≡ row }
    ensures within { result ≤ length edges.now }
{
    match edges.binary_search(&y) {
        Ok(row) => row,
        Err(above) => above.saturating_sub(1),
    }
}
