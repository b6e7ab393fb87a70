// Sections.

ghost use Rattle.std.specs.Prelude.{List, ℕ, ◌≤◌};
ghost use Rattle.std.specs.Borrow.{MutBor};
ghost use Rattle.base.specs.Limits as limits;
ghost use Rattle.answer_write.specs.declared.Text.{Text};
ghost use Rattle.answer_write.specs.Inner.Texts.{Extends};
ghost use Rattle.answer_text.specs.Inner.Ranges.{section_of, AddsEach};

use answer_write::Text;

// The heading, what is put of each query, and an empty line.
pub(crate) fn put_section<F: Fn(&mut Text, usize)>(
    text: &mut Text,
    heading: &[u8],
    queries: usize,
    put: F,
)
    requires few { queries ≤ limits.most_queries }
    requires can { (t : MutBor Text) (q : ℕ) → 1 ≤ q → q ≤ limits.most_queries → F.pre put t q }
    ensures { (f : ℕ → List ℕ) → AddsEach (λ t q u. F.post put t q tt u) f → Extends text.old (section_of heading.now f queries) text.new }
{
    text.put_bytes(heading);
    for q in 1..=queries {
        put(text, q);
    }
    text.put(b'\n');
}
