// Question 5: are the counts of rows in bounds?

#![tactic(auto)]

ghost use Rattle.std.specs.Prelude.{◌≡◌, ◌+◌, ◌<◌, ◌≤◌, MatchResult};
ghost use Rattle.base.specs.Limits as limit;
ghost use Rattle.names_width.specs.Widths.{limits};
ghost use Rattle.sheet.specs.Questions.{count_fault};
ghost use Rattle.sheet.specs.Faults.{listed};
ghost use Rattle.sheet.specs.Inner.Answers.{unless_fault};

use names_width::Width;
use sheet::Counts;

// The line of the heading behind a section; or of its first row over the most.
fn heading_behind(heading: usize, rows: usize, most: usize) -> Result<usize, usize>
    requires { (heading ≤ limit.largest_value) × (most ≤ limit.largest_value) }
    ensures { MatchResult result (λ next. (rows ≤ most) × (next ≡ heading + rows + 2)) (λ line. (most < rows) × (line ≡ heading + most + 1)) }
{
    if most < rows {
        return Err(heading + most + 1);
    }
    Ok(heading + rows + 2)
}

// The line of the first row over the most of its section, or of the heading of no query.
pub fn check_counts(counts: Counts, width: Width) -> Result<(), usize>
    ensures { result ≡ unless_fault (count_fault (limits width) (listed counts)) }
{
    let built_ins = heading_behind(1, counts.names, width.names())?;
    let expressions = heading_behind(built_ins, counts.builtins, base::BUILT_INS)?;
    let statements = heading_behind(expressions, counts.exprs, base::EXPRESSIONS)?;
    let queries = heading_behind(statements, counts.statements, base::STATEMENTS)?;
    heading_behind(queries, counts.queries, base::QUERIES)?;
    if counts.queries == 0 {
        return Err(queries);
    }
    Ok(())
}
