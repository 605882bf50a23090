//! Laws of the definitions alone. Nothing here runs.

ghost use Rattle.std.specs.Prelude.{◌≡◌, ◌<◌, ◌^◌, ℕ, All};
ghost use Rattle.dl_exact.specs.Fraction.{Fraction};
ghost use Rattle.dl_frac.specs.Exact.{FitsFrac};
ghost use Rattle.dl_report.specs.Prelude.{lines_of, csv_of, json_of, IsPlain};
ghost use Rattle.dl_report.specs.declared.report.Report.{Report};

/// The lines of a report determine its rows, whatever its digits.
pub fn law_text_determines_rows()
    ensures { (a b : Report) → All IsPlain a.rows → All IsPlain b.rows → lines_of a ≡ lines_of b
        → a.rows ≡ b.rows }
{}

/// The records of a report determine its rows, whatever its digits.
pub fn law_csv_determines_rows()
    ensures { (a b : Report) → All IsPlain a.rows → All IsPlain b.rows → csv_of a ≡ csv_of b
        → a.rows ≡ b.rows }
{}

/// The JSON of a report determines its rows, whatever its digits, its bucket size and its cells.
pub fn law_json_determines_rows()
    ensures { (a b : Report) (x y : Fraction) (m n : ℕ) → FitsFrac x → FitsFrac y
        → m < 2 ^ 32 → n < 2 ^ 32
        → All IsPlain a.rows → All IsPlain b.rows → json_of a x m ≡ json_of b y n
        → a.rows ≡ b.rows }
{}
