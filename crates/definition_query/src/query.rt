// Query analysis. A query's statements lead to its comprehensions and bodies, each of which is a query of its own: one cycle of calls, in
// which the levels that are left fall. A nested query is lent the part of work behind the rows of the one that it stands in.

ghost use Rattle.std.specs.Prelude.{◌≡◌, ◌-◌, ◌≤◌, length};
ghost use Rattle.base.specs.Limits as limits;
ghost use Rattle.definition_room.specs.Inner.Sizes.{total};
ghost use Rattle.definition_room.specs.Inner.Leaves.{bracket_vars};
ghost use Rattle.definition_room.specs.Inner.Exprs.{pair_cost};
ghost use Rattle.scope_walk.specs.Inner.Sheets.{Accepted, statement_count};
ghost use Rattle.scope_walk.specs.Inner.Exprs.{expr_by};
ghost use Rattle.definition_comprs.specs.Inner.Lists.{listed_at};
ghost use Rattle.definition_expr.specs.Inner.Defined.{ListedExtras};
ghost use Rattle.definition_cycle.specs.Inner.Asks.{OnRow, OnRows, OnStatement, AsksComprs, AsksExpr, pair_at, pairs_at, other_at, AsksWhole, AsksLiteral, AsksStmts, AsksQuery};
ghost use Rattle.definition_steps.specs.Inner.Pairs.{leaves_at};
ghost use Rattle.definition_cycle.specs.Inner.Does.{DoesComprs, DoesUse, DoesPairs, DoesOthers, DoesNonVars, DoesStep, expr_step, some_in_step, every_step, literal_step, DoesStmts};
ghost use Rattle.definition_cycle.specs.Inner.Queries.{DoesQuery};

use definition_after::assign::assign;
use definition_after::finish::{begun, finish, opened};
use definition_after::used_by::{all_used, none_left, others_used, without_comprs};
use definition_comprs::after::after_compr;
use definition_comprs::list::{LISTED, list_both, listed_at};
use definition_comprs::pending::pending;
use definition_expr::Using;
use definition_expr::mods::use_mods;
use definition_expr::vars::use_vars;
use definition_literal::body::{after_body, body_of};
use definition_literal::context::Context;
use definition_literal::extra::{bind_extras, extra_arg, extra_vars};
use definition_literal::pairs::{Pair, differ, pair_of};
use definition_literal::some::{fail_if_some, non_var};
use definition_record::checks::check_vars;
use definition_record::least::at_least_one;
use definition_record::record::{record_each, record_one, record_some};
use definition_record::some::{first_some, some_vars};
use definition_state::{Fault, Progress};
use definition_walk::assigned::pattern_of;
use names::{CAPACITY, Names};
use names_width::Width;
use scope_gather::body::enclose_every;
use scope_gather::local_vars::gather_local_vars;
use scope_state::enclose::enclose;
use scope_vars::vars::{is_assign, is_col_eq};
use sheet::{Form, Statement};
use sheet_rows::{first_at, row_at, statement_at};

// `process_comprs`: the comprehensions at listed rows, from place `at` on, before place `end`. Each query is analysed once, and what it takes
// from around it rises. The walk that lists them is no part of the cycle.
#[cycle(analysis)]
fn process_comprs(
    tables: &[u16],
    inner: &[u32],
    rows: &[u16],
    at: usize,
    end: usize,
    levels: usize,
    p: Progress,
    firsts: &mut [u64],
    work: &mut [u64],
) -> Progress
    requires { AsksComprs tables.now inner.now rows.now at end p firsts.old work.old }
    ensures { DoesComprs tables.now inner.now (listed_at tables.now rows.now at (end - at)) levels p firsts.old work.old result firsts.new work.new }
{
    if at == end {
        return p;
    }
    let w = listed_at(tables, rows, at);
    let query = pending(p, w, work);
    let width = p.width;
    let first = width.row() * p.count;
    let fault = analyze_query(
        tables,
        inner,
        query,
        w.first as usize,
        w.second as usize,
        levels,
        &mut work[first..],
        width,
    );
    let s = after_compr(w, p, fault, firsts, work);
    process_comprs(tables, inner, rows, at + 1, end, levels, s, firsts, work)
}

// What the expression at a row uses, with its comprehensions and those of the modifiers. Hands back all names that it uses.
#[cycle(analysis)]
fn use_expr(
    tables: &[u16],
    inner: &[u32],
    extras: Names,
    row: usize,
    rest: bool,
    context: Context,
    p: Progress,
    firsts: &mut [u64],
    work: &mut [u64],
) -> Using
    requires { OnRow tables.now inner.now firsts.old row (AsksExpr tables.now inner.now row 0 context p firsts.old work.old (bracket_vars (expr_by tables.now rest row))) × ListedExtras extras }
    ensures { DoesUse tables.now inner.now extras (expr_by tables.now rest row) context p firsts.old work.old result firsts.new work.new }
{
    let mods = context.mods;
    let u = use_vars(
        tables,
        extras,
        context.statement,
        row,
        rest,
        p,
        firsts,
        work,
    );
    let comprs = u.comprs;
    if none_left(comprs, mods) {
        return without_comprs(u, context);
    }
    let mut rows: [u16; LISTED] = [0; LISTED];
    let end = list_both(tables, comprs, rest, mods, &mut rows);
    let progress = process_comprs(
        tables,
        inner,
        &rows,
        0,
        end,
        context.levels,
        u.progress,
        firsts,
        work,
    );
    let names = all_used(tables, progress, u.names, &rows[..end], context, work);
    Using {
        progress,
        names,
        comprs,
    }
}

// A pair of an assignment, both ways; nothing where there is none. `check`: are the first uses of what stands on the left looked at?
#[cycle(analysis)]
fn assign_pair(
    tables: &[u16],
    inner: &[u32],
    left: usize,
    right: usize,
    check: bool,
    context: Context,
    p: Progress,
    firsts: &mut [u64],
    work: &mut [u64],
) -> Progress
    requires { OnRows tables.now inner.now firsts.old left right (AsksExpr tables.now inner.now left right context p firsts.old work.old (total pair_cost (pair_at tables.now left right))) }
    ensures { DoesPairs tables.now inner.now (pair_at tables.now left right) check context p firsts.old work.old result firsts.new work.new }
{
    if left == 0 {
        return p;
    }
    let none = Names::empty();
    let u = use_expr(tables, inner, none, right, false, context, p, firsts, work);
    let s = assign(tables, left, check, context.statement, u, firsts, work);
    let v = use_expr(tables, inner, none, left, false, context, s, firsts, work);
    assign(tables, right, false, context.statement, v, firsts, work)
}

// `process_assign_expr`: the expressions of two chains side by side.
#[cycle(analysis)]
fn process_pairs(
    tables: &[u16],
    inner: &[u32],
    left: usize,
    right: usize,
    check: bool,
    context: Context,
    p: Progress,
    firsts: &mut [u64],
    work: &mut [u64],
) -> Progress
    requires { OnRows tables.now inner.now firsts.old left right (AsksExpr tables.now inner.now left right context p firsts.old work.old (total pair_cost (pairs_at tables.now left right))) }
    ensures { DoesPairs tables.now inner.now (pairs_at tables.now left right) check context p firsts.old work.old result firsts.new work.new }
{
    if left == 0 {
        return p;
    }
    if right == 0 {
        return p;
    }
    let a = row_at(tables, left);
    let b = row_at(tables, right);
    let s = match pair_of(tables, left, right, a, b) {
        Pair::Sides(l, r) => assign_pair(tables, inner, l, r, check, context, p, firsts, work),
        Pair::Chains(l, r) => process_pairs(tables, inner, l, r, check, context, p, firsts, work),
        Pair::Differ => differ(b, p),
    };
    if a.next == 0 {
        return s;
    }
    process_pairs(
        tables,
        inner,
        a.next as usize,
        b.next as usize,
        check,
        context,
        s,
        firsts,
        work,
    )
}

// A part of a some-in pattern that is no variable; nothing where there is none.
#[cycle(analysis)]
fn process_non_var(
    tables: &[u16],
    inner: &[u32],
    row: usize,
    context: Context,
    p: Progress,
    firsts: &mut [u64],
    work: &mut [u64],
) -> Progress
    requires { OnRow tables.now inner.now firsts.old row (AsksExpr tables.now inner.now row 0 context p firsts.old work.old (total bracket_vars (other_at tables.now row))) }
    ensures { DoesOthers tables.now inner.now (other_at tables.now row) context p firsts.old work.old result firsts.new work.new }
{
    if row == 0 {
        return p;
    }
    let none = Names::empty();
    let u = use_vars(tables, none, context.statement, row, false, p, firsts, work);
    let s = fail_if_some(p.count, u.progress);
    let mut rows: [u16; LISTED] = [0; LISTED];
    let end = list_both(tables, u.comprs, false, context.mods, &mut rows);
    process_comprs(
        tables,
        inner,
        &rows,
        0,
        end,
        context.levels,
        s,
        firsts,
        work,
    )
}

// The parts of the pattern at a row, with the rest of its chain, that are no variables.
#[cycle(analysis)]
fn process_non_vars(
    tables: &[u16],
    inner: &[u32],
    row: usize,
    context: Context,
    p: Progress,
    firsts: &mut [u64],
    work: &mut [u64],
) -> Progress
    requires { OnRow tables.now inner.now firsts.old row (AsksExpr tables.now inner.now row 0 context p firsts.old work.old (total bracket_vars (leaves_at tables.now row))) }
    ensures { DoesNonVars tables.now inner.now row context p firsts.old work.old result firsts.new work.new }
{
    if row == 0 {
        return p;
    }
    let w = row_at(tables, row);
    let items = pattern_of(w);
    let other = non_var(tables, p, row, w);
    let mut s = p;
    if other != 0 {
        s = process_non_var(tables, inner, other, context, p, firsts, work);
    }
    if items != 0 {
        s = process_non_vars(tables, inner, items, context, s, firsts, work);
    }
    if w.next == 0 {
        return s;
    }
    process_non_vars(tables, inner, w.next as usize, context, s, firsts, work)
}

// `Literal::SomeIn`.
#[cycle(analysis)]
fn process_some_in(
    tables: &[u16],
    outer: &[u32],
    st: Statement,
    context: Context,
    p: Progress,
    spans: &[u32],
    firsts: &mut [u64],
    work: &mut [u64],
) -> Progress
    requires { OnStatement tables.now outer.now spans.now firsts.old (AsksLiteral tables.now outer.now spans.now st context p firsts.old work.old) × (st.form ≡ 2) }
    ensures { DoesStep tables.now (some_in_step tables.now st context) outer.now spans.now context p firsts.old work.old result firsts.new work.new }
{
    let mut inner: [u32; CAPACITY] = [0; CAPACITY];
    enclose(outer, p.scope, spans, &mut inner);
    let none = Names::empty();
    let key = st.first as usize;
    let value = st.second as usize;
    let mut vars = some_vars(tables, p.scope, key, none);
    vars = some_vars(tables, p.scope, value, vars);
    let u = use_expr(
        tables,
        &inner,
        none,
        st.third as usize,
        true,
        context,
        p,
        firsts,
        work,
    );
    let mut s = record_some(context.statement, vars, u.names, u.progress, work);
    first_some(tables, p.scope, key, firsts);
    first_some(tables, p.scope, value, firsts);
    s = process_non_vars(tables, &inner, key, context, s, firsts, work);
    s = process_non_vars(tables, &inner, value, context, s, firsts, work);
    let used = others_used(tables, s, key, value, context, work);
    record_one(context.statement, used, s, work)
}

// `Literal::Every`: the domain is read, and the body is a query below key and value.
#[cycle(analysis)]
fn process_every(
    tables: &[u16],
    outer: &[u32],
    st: Statement,
    context: Context,
    p: Progress,
    spans: &[u32],
    firsts: &mut [u64],
    work: &mut [u64],
) -> Progress
    requires { OnStatement tables.now outer.now spans.now firsts.old (AsksLiteral tables.now outer.now spans.now st context p firsts.old work.old) × (st.form ≡ 5) }
    ensures { DoesStep tables.now (every_step tables.now st context) outer.now spans.now context p firsts.old work.old result firsts.new work.new }
{
    let mut inner: [u32; CAPACITY] = [0; CAPACITY];
    let mut body: [u32; CAPACITY] = [0; CAPACITY];
    enclose(outer, p.scope, spans, &mut inner);
    let none = Names::empty();
    let u = use_expr(
        tables,
        &inner,
        none,
        st.third as usize,
        true,
        context,
        p,
        firsts,
        work,
    );
    let s = record_one(context.statement, u.names, u.progress, work);
    enclose_every(
        tables,
        &inner,
        st.first as usize,
        st.second as usize,
        &mut body,
    );
    let query = body_of(s, st.query as usize);
    let width = s.width;
    let at = width.row() * s.count;
    let fault = analyze_query(
        tables,
        &body,
        query,
        0,
        0,
        context.levels,
        &mut work[at..],
        width,
    );
    after_body(s, fault)
}

// `process_expr`: an assignment, or any other expression, which records its uses; `call`: does an extra argument count?
#[cycle(analysis)]
fn process_expr(
    tables: &[u16],
    outer: &[u32],
    row: usize,
    call: bool,
    context: Context,
    p: Progress,
    spans: &[u32],
    firsts: &mut [u64],
    work: &mut [u64],
) -> Progress
    requires { OnStatement tables.now outer.now spans.now firsts.old (AsksWhole tables.now outer.now spans.now row context p firsts.old work.old) }
    ensures { DoesStep tables.now (expr_step tables.now call row context) outer.now spans.now context p firsts.old work.old result firsts.new work.new }
{
    let mut inner: [u32; CAPACITY] = [0; CAPACITY];
    let arg = extra_arg(tables, row, call);
    let extras = extra_vars(tables, outer, arg);
    let s = bind_extras(p, extras);
    enclose(outer, s.scope, spans, &mut inner);
    let w = row_at(tables, row);
    if is_assign(w) {
        return process_pairs(
            tables,
            &inner,
            w.first as usize,
            w.second as usize,
            is_col_eq(w),
            context,
            s,
            firsts,
            work,
        );
    }
    let u = use_expr(tables, &inner, extras, row, true, context, s, firsts, work);
    record_each(context.statement, extras, u.names, false, u.progress, work)
}

// A literal, by its form.
#[cycle(analysis)]
fn process_literal(
    tables: &[u16],
    outer: &[u32],
    st: Statement,
    context: Context,
    p: Progress,
    spans: &[u32],
    firsts: &mut [u64],
    work: &mut [u64],
) -> Progress
    requires { OnStatement tables.now outer.now spans.now firsts.old (AsksLiteral tables.now outer.now spans.now st context p firsts.old work.old) }
    ensures { DoesStep tables.now (literal_step tables.now st context) outer.now spans.now context p firsts.old work.old result firsts.new work.new }
{
    let first = st.first as usize;
    match Form::from(st.form) {
        Form::SomeVars => check_vars(tables, first, p, firsts),
        Form::SomeIn => process_some_in(tables, outer, st, context, p, spans, firsts, work),
        Form::Every => process_every(tables, outer, st, context, p, spans, firsts, work),
        Form::Expr => process_expr(tables, outer, first, true, context, p, spans, firsts, work),
        Form::NotExpr | Form::Unknown => {
            process_expr(tables, outer, first, false, context, p, spans, firsts, work)
        }
    }
}

// The statements from a row on, the first being statement `statement`.
#[cycle(analysis)]
fn process_stmts(
    tables: &[u16],
    outer: &[u32],
    row: usize,
    statement: usize,
    levels: usize,
    p: Progress,
    spans: &[u32],
    firsts: &mut [u64],
    work: &mut [u64],
) -> Progress
    requires { OnStatement tables.now outer.now spans.now firsts.old (AsksStmts tables.now outer.now spans.now row statement p firsts.old work.old) × (row ≤ statement_count tables.now) }
    ensures { DoesStmts tables.now outer.now spans.now row statement levels p firsts.old work.old result firsts.new work.new }
{
    if row == 0 {
        return p;
    }
    let st = statement_at(tables, row);
    let none = Names::empty();
    let u = use_mods(tables, statement, st.with as usize, p, none, firsts, work);
    let names = u.names;
    let mods = u.comprs;
    let context = Context {
        statement,
        mods,
        names,
        levels,
    };
    let mut s = process_literal(tables, outer, st, context, u.progress, spans, firsts, work);
    s = at_least_one(statement, p.count, s, work);
    process_stmts(
        tables,
        outer,
        st.next as usize,
        statement + 1,
        levels,
        s,
        spans,
        firsts,
        work,
    )
}

// `analyze_query`: the scope is gathered, the statements are processed in their order, then the outputs; last, the query is scheduled.
// Nothing where there is no query.
// The fault is handed back as the query around it keeps it in its progress: a Result would be made of an Option, and turned into one again.
#[cycle(analysis)]
pub fn analyze_query(
    tables: &[u16],
    outer: &[u32],
    query: usize,
    key: usize,
    value: usize,
    levels: usize,
    work: &mut [u64],
    width: Width,
) -> Option<Fault>
    requires { Accepted tables.now × (limits.per_name ≤ length outer.now) × AsksQuery tables.now width outer.now work.old query key value }
    ensures { DoesQuery tables.now width outer.now query key value levels work.old result work.new }
{
    if query == 0 {
        return None;
    }
    if levels == 0 {
        return None;
    }
    let mut spans: [u32; CAPACITY] = [0; CAPACITY];
    let mut firsts: [u64; CAPACITY] = [0; CAPACITY];
    let mut inner: [u32; CAPACITY] = [0; CAPACITY];
    let scope = gather_local_vars(tables, outer, query, key, value, &mut spans);
    let start = begun(scope, width);
    let row = first_at(tables, query) as usize;
    let s = process_stmts(
        tables,
        outer,
        row,
        0,
        levels - 1,
        start,
        &spans,
        &mut firsts,
        work,
    );
    let open = opened(s);
    enclose(outer, open.scope, &spans, &mut inner);
    let mut rows: [u16; LISTED] = [0; LISTED];
    let end = list_both(tables, key, true, value, &mut rows);
    let t = process_comprs(
        tables,
        &inner,
        &rows,
        0,
        end,
        levels - 1,
        open,
        &mut firsts,
        work,
    );
    finish(tables, query, s.scope, t, &spans, work)
}
