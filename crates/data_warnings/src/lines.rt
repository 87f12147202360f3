//! The lines of findings.

ghost use Rattle.std.specs.Prelude.{◌≡◌, ◌≤◌, ◌++◌, [], IfOk, OnOk};
ghost use Rattle.model_sets.specs.Names.{set_count, year};
ghost use Rattle.model_sets.specs.Params.{IsParam};
ghost use Rattle.data_warnings.specs.Lines.{above_line, asked_start, asked_text, bare_number, beside_text, both_ways_line, both_ways_text, crossed_line, default_line, default_text, first_names, for_first, gap_line, gap_text, last_line, line, lines_text, loose_line, member_line, members_line, members_text, more_members, more_text, more_word, more_years, names_text, nearest_text, next_name, number_text, of_names, outlier_line, pair_line, pair_text, plain_line, reach_line, reach_text, rounded_line, route_line, route_remark, route_start, said, starved_line, starved_text, storage_line, storage_text, subject_line, subject_text, sum_line, unmade_line, unmade_text, years_text};
ghost use Rattle.std.specs.Fmt.{decimal};
ghost use Rattle.std.specs.List.{flat_map};

use crate::decimals::push_decimal;
use crate::neighbours::nearest;
use crate::places::Finding;
use crate::rules::{NO_SET, Rule, frame_of};
use crate::values::name_of;
use crate::words::{greatest_of, param_of};
use itoa::Buffer;
use model_sets::param_numbers::{
    TOTAL_ANNUAL_MAX_CAPACITY, TOTAL_TECHNOLOGY_MODEL_PERIOD_ACTIVITY_UPPER_LIMIT,
};
use model_sets::set_numbers::{TECHNOLOGY, YEAR};
use model_sets::{Sets, param_word};
use std::alloc::{AllocError, Global};

/// The lines of the findings, those of the technologies that charge or discharge storages, and the line with the number of both. It may
/// run out of memory.
pub(crate) fn lines_text(
    alloc: Global,
    sets: &Sets,
    found: &[Finding],
    users: &[u16],
) -> Result<Vec<u8>, AllocError>
    ensures { IfOk result (λ text. text.items ≡ lines_text sets.now found.now users.now) }
{
    let mut out = Vec::new(alloc);
    push_lines(&mut out, sets, found)?;
    push_storage_lines(&mut out, sets, users)?;
    push_last_line(&mut out, found.len() + users.len())?;
    Ok(out)
}

// Appends the lines of the findings.
fn push_lines(out: &mut Vec<u8>, sets: &Sets, found: &[Finding]) -> Result<(), AllocError>
    ensures { OnOk result (out.new.items ≡ out.old.items ++ flat_map (line sets.now) found.now) }
{
    for finding in found {
        push_line(out, sets, *finding)?;
    }
    Ok(())
}

// Appends the lines of technologies that charge or discharge storages.
fn push_storage_lines(out: &mut Vec<u8>, sets: &Sets, users: &[u16]) -> Result<(), AllocError>
    ensures { OnOk result (out.new.items ≡ out.old.items ++ flat_map (storage_line sets.now) users.now) }
{
    for user in users {
        push_storage_line(out, sets, *user)?;
    }
    Ok(())
}

// Appends the line of one.
#[tactic(auto, unfolding(crate::specs::Lines::storage_line))]
fn push_storage_line(out: &mut Vec<u8>, sets: &Sets, user: u16) -> Result<(), AllocError>
    ensures { OnOk result (out.new.items ≡ out.old.items ++ storage_line sets.now user) }
{
    out.extend_from_slice(b"warning ")?;
    out.extend_from_slice(name_of(sets, TECHNOLOGY, user))?;
    push_storage_text(out)?;
    out.extend_from_slice(b"\n")
}

// Appends what is said of it.
#[tactic(auto, unfolding(crate::specs::Lines::storage_text))]
fn push_storage_text(out: &mut Vec<u8>) -> Result<(), AllocError>
    ensures { OnOk result (out.new.items ≡ out.old.items ++ storage_text) }
{
    out.extend_from_slice(
        b" charges or discharges a storage, and the equations have none: what discharges makes energy out of nothing",
    )
}

// Appends the last line.
#[tactic(auto, unfolding(crate::specs::Lines::last_line))]
fn push_last_line(out: &mut Vec<u8>, found: usize) -> Result<(), AllocError>
    ensures { OnOk result (out.new.items ≡ out.old.items ++ last_line found) }
{
    out.extend_from_slice(b"warnings ")?;
    push_count(out, found)?;
    out.extend_from_slice(b"\n")
}

// Appends a number.
fn push_count(out: &mut Vec<u8>, number: usize) -> Result<(), AllocError>
    ensures { OnOk result (out.new.items ≡ out.old.items ++ decimal number) }
{
    let mut digits = Buffer::new();
    out.extend_from_slice(digits.format(number).as_bytes())
}

// Appends the line of a finding.
#[tactic(auto, unfolding(crate::specs::Lines::line))]
fn push_line(out: &mut Vec<u8>, sets: &Sets, f: Finding) -> Result<(), AllocError>
    ensures { OnOk result (out.new.items ≡ out.old.items ++ line sets.now f) }
{
    out.extend_from_slice(b"warning ")?;
    push_said(out, sets, f)?;
    out.extend_from_slice(b"\n")
}

// Appends what is said of a finding.
fn push_said(out: &mut Vec<u8>, sets: &Sets, f: Finding) -> Result<(), AllocError>
    ensures { OnOk result (out.new.items ≡ out.old.items ++ said sets.now f f.rule) }
{
    match f.rule {
        Rule::YearSplitSum | Rule::ProfileSum => push_sum(out, sets, f),
        Rule::YearGap => push_gap(out, sets, f),
        Rule::DiscountRate => push_plain(out, sets, f, b": 0.05 is 5 per cent"),
        Rule::UnprofiledDemand => push_plain(
            out,
            sets,
            f,
            b": its profile is 0, so none of it is asked for",
        ),
        Rule::UnmadeDemand => push_unmade(out, sets, f),
        Rule::StarvedTechnology => push_starved(out, sets, f),
        Rule::Disabled(_) => push_plain(out, sets, f, b": it makes something and can't run"),
        Rule::Crossed(pair) => push_crossed(out, sets, f, greatest_of(pair)),
        Rule::CrossedPeriod => push_crossed(
            out,
            sets,
            f,
            TOTAL_TECHNOLOGY_MODEL_PERIOD_ACTIVITY_UPPER_LIMIT,
        ),
        Rule::Unreachable => push_reach_line(out, sets, f),
        Rule::ShortLives => push_default(out, sets, f, b": each is bought anew each year"),
        Rule::CoarseRates => push_members_line(
            out,
            sets,
            f,
            b": investments are more than a millionth off; use --places 9",
        ),
        Rule::LargeFactor => push_above(out, sets, f),
        Rule::LargeAvailability => push_plain(out, sets, f, b""),
        Rule::LargeTarget => push_plain(out, sets, f, b": 0.2 is 20 per cent"),
        Rule::SmallMargin => push_plain(
            out,
            sets,
            f,
            b": 1.15 asks for 15 per cent more than is made",
        ),
        Rule::NegativeCost(_) => push_loose(out, sets, f),
        Rule::Outlier(_) => push_outlier(out, sets, f),
        Rule::OneWayRoute => push_route(out, sets, f),
        Rule::EqualRoute => push_plain(
            out,
            sets,
            f,
            b": equal both ways, it loses nothing; use a technology",
        ),
        Rule::UnequalRoute => push_both_ways_line(
            out,
            sets,
            f,
            b": one way makes energy, the other destroys it; use a technology",
        ),
        Rule::ZeroLimits(_) | Rule::ZeroEmissions(_) => {
            push_default(out, sets, f, b": 0 is a limit, -1 is none")
        }
        Rule::HighLimits(_) => push_subject_line(
            out,
            sets,
            f,
            b" has values of 99999 and more: -1 is no limit, and quicker",
        ),
        Rule::IdleLimit => push_pair_line(out, sets, f, b" has a limit and nothing emits it"),
        Rule::UnusedFuel => push_pair_line(out, sets, f, b" is made and nobody takes it"),
        Rule::IdleTechnology => push_member_line(out, sets, f, b" makes and takes nothing"),
        Rule::Rounded => push_rounded(out, f),
    }
}

// Appends a number alone, and a remark.
#[tactic(auto, unfolding(crate::specs::Lines::plain_line))]
fn push_plain(out: &mut Vec<u8>, sets: &Sets, f: Finding, remark: &[u8]) -> Result<(), AllocError>
    ensures { OnOk result (out.new.items ≡ out.old.items ++ plain_line sets.now f remark.now) }
{
    push_number(out, sets, f)?;
    push_years(out, sets, f)?;
    out.extend_from_slice(remark)
}

// Appends a default, the members that have it, and a remark.
#[tactic(auto, unfolding(crate::specs::Lines::default_line))]
fn push_default(out: &mut Vec<u8>, sets: &Sets, f: Finding, remark: &[u8]) -> Result<(), AllocError>
    ensures { OnOk result (out.new.items ≡ out.old.items ++ default_line sets.now f remark.now) }
{
    push_default_text(out, f)?;
    push_for_first(out, sets, f)?;
    push_more_members(out, f.more)?;
    out.extend_from_slice(remark)
}

// Appends the parameter and its number.
#[tactic(auto, unfolding(crate::specs::Lines::bare_number))]
fn push_bare_number(out: &mut Vec<u8>, f: Finding) -> Result<(), AllocError>
    ensures { OnOk result (out.new.items ≡ out.old.items ++ bare_number f) }
{
    out.extend_from_slice(param_word(param_of(f.rule)).as_bytes())?;
    out.extend_from_slice(b" is ")?;
    push_decimal(out, f.number)
}

// Appends the first member and the first of those that are told together.
#[tactic(auto, unfolding(crate::specs::Lines::first_names))]
fn push_first_names(out: &mut Vec<u8>, sets: &Sets, f: Finding) -> Result<(), AllocError>
    ensures { OnOk result (out.new.items ≡ out.old.items ++ first_names sets.now f) }
{
    let over = frame_of(f.rule);
    out.extend_from_slice(name_of(sets, over.first, f.place.first))?;
    push_next_name(out, sets, over.last, f.place.last)
}

// Appends that this is a default.
#[tactic(auto, unfolding(crate::specs::Lines::default_text))]
fn push_default_text(out: &mut Vec<u8>, f: Finding) -> Result<(), AllocError>
    ensures { OnOk result (out.new.items ≡ out.old.items ++ default_text f) }
{
    push_bare_number(out, f)?;
    out.extend_from_slice(b" by default")
}

// Appends for which it is so.
#[tactic(auto, unfolding(crate::specs::Lines::for_first))]
fn push_for_first(out: &mut Vec<u8>, sets: &Sets, f: Finding) -> Result<(), AllocError>
    ensures { OnOk result (out.new.items ≡ out.old.items ++ for_first sets.now f) }
{
    out.extend_from_slice(b" for ")?;
    push_first_names(out, sets, f)
}

// Appends how many more members.
#[tactic(auto, unfolding(crate::specs::Lines::more_members))]
fn push_more_members(out: &mut Vec<u8>, more: usize) -> Result<(), AllocError>
    ensures { OnOk result (out.new.items ≡ out.old.items ++ more_members more) }
{
    if more == 0 {
        return Ok(());
    }
    out.extend_from_slice(b" and ")?;
    push_count(out, more)?;
    out.extend_from_slice(b" more")
}

// Appends a number beside that of another parameter.
#[tactic(auto, unfolding(crate::specs::Lines::crossed_line))]
fn push_crossed(out: &mut Vec<u8>, sets: &Sets, f: Finding, greatest: u8) -> Result<(), AllocError>
    requires { IsParam greatest }
    ensures { OnOk result (out.new.items ≡ out.old.items ++ crossed_line sets.now f greatest) }
{
    push_number(out, sets, f)?;
    push_beside(out, f, greatest)?;
    push_years(out, sets, f)?;
    out.extend_from_slice(b": no plan")
}

// Appends the number of another parameter.
#[tactic(auto, unfolding(crate::specs::Lines::beside_text))]
fn push_beside(out: &mut Vec<u8>, f: Finding, greatest: u8) -> Result<(), AllocError>
    requires { IsParam greatest }
    ensures { OnOk result (out.new.items ≡ out.old.items ++ beside_text f greatest) }
{
    out.extend_from_slice(b" and ")?;
    out.extend_from_slice(param_word(greatest).as_bytes())?;
    out.extend_from_slice(b" ")?;
    push_decimal(out, f.other)
}

// Appends a cost below 0.
#[tactic(auto, unfolding(crate::specs::Lines::loose_line))]
fn push_loose(out: &mut Vec<u8>, sets: &Sets, f: Finding) -> Result<(), AllocError>
    ensures { OnOk result (out.new.items ≡ out.old.items ++ loose_line sets.now f) }
{
    push_number(out, sets, f)?;
    out.extend_from_slice(b" and no limit holds it")?;
    push_years(out, sets, f)
}

// Appends a number beside that of the nearest year.
#[tactic(auto, unfolding(crate::specs::Lines::outlier_line))]
fn push_outlier(out: &mut Vec<u8>, sets: &Sets, f: Finding) -> Result<(), AllocError>
    ensures { OnOk result (out.new.items ≡ out.old.items ++ outlier_line sets.now f) }
{
    push_number(out, sets, f)?;
    push_years(out, sets, f)?;
    push_nearest(out, sets, f)
}

// Appends the number of the nearest year.
#[tactic(auto, unfolding(crate::specs::Lines::nearest_text))]
fn push_nearest(out: &mut Vec<u8>, sets: &Sets, f: Finding) -> Result<(), AllocError>
    ensures { OnOk result (out.new.items ≡ out.old.items ++ nearest_text sets.now f) }
{
    out.extend_from_slice(b" beside ")?;
    push_decimal(out, f.other)?;
    out.extend_from_slice(b" in ")?;
    out.extend_from_slice(name_of(sets, YEAR, nearest(f.place.last)))
}

// Appends a route that leads one way.
#[tactic(auto, unfolding(crate::specs::Lines::route_line))]
fn push_route(out: &mut Vec<u8>, sets: &Sets, f: Finding) -> Result<(), AllocError>
    ensures { OnOk result (out.new.items ≡ out.old.items ++ route_line sets.now f) }
{
    push_route_start(out, sets, f)?;
    push_years(out, sets, f)?;
    push_route_remark(out, sets, f)
}

// Appends that there is no route back.
#[tactic(auto, unfolding(crate::specs::Lines::route_start))]
fn push_route_start(out: &mut Vec<u8>, sets: &Sets, f: Finding) -> Result<(), AllocError>
    ensures { OnOk result (out.new.items ≡ out.old.items ++ route_start sets.now f) }
{
    push_subject(out, sets, f)?;
    out.extend_from_slice(b" has no route back")
}

// Appends what a route that leads one way does.
#[tactic(auto, unfolding(crate::specs::Lines::route_remark))]
fn push_route_remark(out: &mut Vec<u8>, sets: &Sets, f: Finding) -> Result<(), AllocError>
    ensures { OnOk result (out.new.items ≡ out.old.items ++ route_remark sets.now f) }
{
    out.extend_from_slice(b": what ")?;
    out.extend_from_slice(name_of(sets, frame_of(f.rule).first, f.place.first))?;
    out.extend_from_slice(b" gets, ")?;
    out.extend_from_slice(name_of(sets, frame_of(f.rule).second, f.place.second))?;
    out.extend_from_slice(b" doesn't lose")
}

// Appends a route whose two ways differ, and a remark.
#[tactic(auto, unfolding(crate::specs::Lines::both_ways_line))]
fn push_both_ways_line(
    out: &mut Vec<u8>,
    sets: &Sets,
    f: Finding,
    remark: &[u8],
) -> Result<(), AllocError>
    ensures { OnOk result (out.new.items ≡ out.old.items ++ both_ways_line sets.now f remark.now) }
{
    push_both_ways(out, sets, f)?;
    push_years(out, sets, f)?;
    out.extend_from_slice(remark)
}

// Appends both ways of a route.
#[tactic(auto, unfolding(crate::specs::Lines::both_ways_text))]
fn push_both_ways(out: &mut Vec<u8>, sets: &Sets, f: Finding) -> Result<(), AllocError>
    ensures { OnOk result (out.new.items ≡ out.old.items ++ both_ways_text sets.now f) }
{
    push_number(out, sets, f)?;
    out.extend_from_slice(b" and back ")?;
    push_decimal(out, f.other)
}

// Appends how many numbers were rounded.
#[tactic(auto, unfolding(crate::specs::Lines::rounded_line))]
fn push_rounded(out: &mut Vec<u8>, f: Finding) -> Result<(), AllocError>
    ensures { OnOk result (out.new.items ≡ out.old.items ++ rounded_line f) }
{
    push_decimal(out, f.number)?;
    out.extend_from_slice(b" of the numbers had more than nine decimal places")
}

// Appends the parameter, the names of the members, and the number.
#[tactic(auto, unfolding(crate::specs::Lines::number_text))]
fn push_number(out: &mut Vec<u8>, sets: &Sets, f: Finding) -> Result<(), AllocError>
    ensures { OnOk result (out.new.items ≡ out.old.items ++ number_text sets.now f) }
{
    push_subject(out, sets, f)?;
    out.extend_from_slice(b" is ")?;
    push_decimal(out, f.number)
}

// Appends the parameter and the names of the members.
#[tactic(auto, unfolding(crate::specs::Lines::subject_text))]
fn push_subject(out: &mut Vec<u8>, sets: &Sets, f: Finding) -> Result<(), AllocError>
    ensures { OnOk result (out.new.items ≡ out.old.items ++ subject_text sets.now f) }
{
    out.extend_from_slice(param_word(param_of(f.rule)).as_bytes())?;
    push_of_names(out, sets, f)
}

// Appends of which members, where there are any.
#[tactic(auto, unfolding(crate::specs::Lines::of_names))]
fn push_of_names(out: &mut Vec<u8>, sets: &Sets, f: Finding) -> Result<(), AllocError>
    ensures { OnOk result (out.new.items ≡ out.old.items ++ of_names sets.now f) }
{
    if frame_of(f.rule).first == NO_SET {
        return Ok(());
    }
    out.extend_from_slice(b" of ")?;
    push_names(out, sets, f)
}

// Appends the second member and the first.
#[tactic(auto, unfolding(crate::specs::Lines::pair_text))]
fn push_pair(out: &mut Vec<u8>, sets: &Sets, f: Finding) -> Result<(), AllocError>
    ensures { OnOk result (out.new.items ≡ out.old.items ++ pair_text sets.now f) }
{
    let over = frame_of(f.rule);
    out.extend_from_slice(name_of(sets, over.second, f.place.second))?;
    out.extend_from_slice(b" of ")?;
    out.extend_from_slice(name_of(sets, over.first, f.place.first))
}

// Appends the names of the members.
#[tactic(auto, unfolding(crate::specs::Lines::names_text))]
fn push_names(out: &mut Vec<u8>, sets: &Sets, f: Finding) -> Result<(), AllocError>
    ensures { OnOk result (out.new.items ≡ out.old.items ++ names_text sets.now f) }
{
    let over = frame_of(f.rule);
    out.extend_from_slice(name_of(sets, over.first, f.place.first))?;
    push_next_name(out, sets, over.second, f.place.second)?;
    push_next_name(out, sets, over.third, f.place.third)
}

// Appends one more name, where the frame has such a set.
fn push_next_name(out: &mut Vec<u8>, sets: &Sets, set: u8, i: u16) -> Result<(), AllocError>
    requires { set ≤ set_count }
    ensures { OnOk result (out.new.items ≡ out.old.items ++ next_name sets.now set i) }
{
    if set == NO_SET {
        return Ok(());
    }
    out.extend_from_slice(b",")?;
    out.extend_from_slice(name_of(sets, set, i))
}

// Appends the years of a rule that goes by years.
#[tactic(auto, unfolding(crate::specs::Lines::years_text))]
fn push_years(out: &mut Vec<u8>, sets: &Sets, f: Finding) -> Result<(), AllocError>
    ensures { OnOk result (out.new.items ≡ out.old.items ++ years_text sets.now f) }
{
    if frame_of(f.rule).last == NO_SET {
        return Ok(());
    }
    out.extend_from_slice(b" in ")?;
    out.extend_from_slice(name_of(sets, YEAR, f.place.last))?;
    push_more_years(out, f.more)
}

// Appends how many more years.
#[tactic(auto, unfolding(crate::specs::Lines::more_years))]
fn push_more_years(out: &mut Vec<u8>, more: usize) -> Result<(), AllocError>
    ensures { OnOk result (out.new.items ≡ out.old.items ++ more_years more) }
{
    if more == 0 {
        return Ok(());
    }
    out.extend_from_slice(b" and ")?;
    push_count(out, more)?;
    out.extend_from_slice(more_word(more))
}

// What stands after the number of further years.
fn more_word(more: usize) -> &'static [u8]
    ensures { result.now ≡ more_word more }
{
    if more == 1 {
        b" more year"
    } else {
        b" more years"
    }
}

// Appends parts that don't sum to 1.
#[tactic(auto, unfolding(crate::specs::Lines::sum_line))]
fn push_sum(out: &mut Vec<u8>, sets: &Sets, f: Finding) -> Result<(), AllocError>
    ensures { OnOk result (out.new.items ≡ out.old.items ++ sum_line sets.now f) }
{
    push_subject(out, sets, f)?;
    out.extend_from_slice(b" sums to ")?;
    push_decimal(out, f.number)?;
    push_years(out, sets, f)
}

// Appends a missing year.
#[tactic(auto, unfolding(crate::specs::Lines::gap_text))]
fn push_gap_text(out: &mut Vec<u8>, sets: &Sets, f: Finding) -> Result<(), AllocError>
    ensures { OnOk result (out.new.items ≡ out.old.items ++ gap_text sets.now f) }
{
    out.extend_from_slice(b"no year ")?;
    push_decimal(out, f.number)?;
    out.extend_from_slice(b" after ")?;
    out.extend_from_slice(name_of(sets, YEAR, f.place.last))
}

// Appends years between which one is missing.
#[tactic(auto, unfolding(crate::specs::Lines::gap_line))]
fn push_gap(out: &mut Vec<u8>, sets: &Sets, f: Finding) -> Result<(), AllocError>
    ensures { OnOk result (out.new.items ≡ out.old.items ++ gap_line sets.now f) }
{
    push_gap_text(out, sets, f)?;
    out.extend_from_slice(b": what lies between the years costs and emits nothing")
}

// Appends a fuel that is asked for.
#[tactic(auto, unfolding(crate::specs::Lines::asked_start))]
fn push_asked_start(out: &mut Vec<u8>, sets: &Sets, f: Finding) -> Result<(), AllocError>
    ensures { OnOk result (out.new.items ≡ out.old.items ++ asked_start sets.now f) }
{
    out.extend_from_slice(name_of(sets, frame_of(f.rule).second, f.place.second))?;
    out.extend_from_slice(b" is asked for")
}

// Appends the same with its region.
#[tactic(auto, unfolding(crate::specs::Lines::asked_text))]
fn push_asked(out: &mut Vec<u8>, sets: &Sets, f: Finding) -> Result<(), AllocError>
    ensures { OnOk result (out.new.items ≡ out.old.items ++ asked_text sets.now f) }
{
    push_asked_start(out, sets, f)?;
    out.extend_from_slice(b" in ")?;
    out.extend_from_slice(name_of(sets, frame_of(f.rule).first, f.place.first))
}

// Appends the same, and that nothing makes it.
#[tactic(auto, unfolding(crate::specs::Lines::unmade_text))]
fn push_unmade_text(out: &mut Vec<u8>, sets: &Sets, f: Finding) -> Result<(), AllocError>
    ensures { OnOk result (out.new.items ≡ out.old.items ++ unmade_text sets.now f) }
{
    push_asked(out, sets, f)?;
    out.extend_from_slice(b" and nothing makes it")
}

// Appends a fuel that is asked for and not supplied.
#[tactic(auto, unfolding(crate::specs::Lines::unmade_line))]
fn push_unmade(out: &mut Vec<u8>, sets: &Sets, f: Finding) -> Result<(), AllocError>
    ensures { OnOk result (out.new.items ≡ out.old.items ++ unmade_line sets.now f) }
{
    push_unmade_text(out, sets, f)?;
    push_years(out, sets, f)?;
    out.extend_from_slice(b": no plan")
}

// Appends what a technology takes.
#[tactic(auto, unfolding(crate::specs::Lines::starved_text))]
fn push_starved_text(out: &mut Vec<u8>, sets: &Sets, f: Finding) -> Result<(), AllocError>
    ensures { OnOk result (out.new.items ≡ out.old.items ++ starved_text sets.now f) }
{
    push_pair(out, sets, f)?;
    out.extend_from_slice(b" takes ")?;
    out.extend_from_slice(name_of(sets, frame_of(f.rule).third, f.place.third))?;
    out.extend_from_slice(b" and nothing makes it")
}

// Appends a technology that takes what isn't supplied.
#[tactic(auto, unfolding(crate::specs::Lines::starved_line))]
fn push_starved(out: &mut Vec<u8>, sets: &Sets, f: Finding) -> Result<(), AllocError>
    ensures { OnOk result (out.new.items ≡ out.old.items ++ starved_line sets.now f) }
{
    push_starved_text(out, sets, f)?;
    push_years(out, sets, f)
}

// Appends a share above 1.
#[tactic(auto, unfolding(crate::specs::Lines::above_line))]
fn push_above(out: &mut Vec<u8>, sets: &Sets, f: Finding) -> Result<(), AllocError>
    ensures { OnOk result (out.new.items ≡ out.old.items ++ above_line sets.now f) }
{
    push_subject(out, sets, f)?;
    out.extend_from_slice(b" is above 1")?;
    push_years(out, sets, f)
}

// Appends a parameter, and the first of the members that are told together.
#[tactic(auto, unfolding(crate::specs::Lines::members_text))]
fn push_members(out: &mut Vec<u8>, sets: &Sets, f: Finding) -> Result<(), AllocError>
    ensures { OnOk result (out.new.items ≡ out.old.items ++ members_text sets.now f) }
{
    out.extend_from_slice(param_word(param_of(f.rule)).as_bytes())?;
    push_for_first(out, sets, f)?;
    push_more_members(out, f.more)
}

// Appends these members, and a remark.
#[tactic(auto, unfolding(crate::specs::Lines::members_line))]
fn push_members_line(
    out: &mut Vec<u8>,
    sets: &Sets,
    f: Finding,
    remark: &[u8],
) -> Result<(), AllocError>
    ensures { OnOk result (out.new.items ≡ out.old.items ++ members_line sets.now f remark.now) }
{
    push_members(out, sets, f)?;
    out.extend_from_slice(remark)
}

// Appends a parameter, and a remark.
#[tactic(auto, unfolding(crate::specs::Lines::subject_line))]
fn push_subject_line(
    out: &mut Vec<u8>,
    sets: &Sets,
    f: Finding,
    remark: &[u8],
) -> Result<(), AllocError>
    ensures { OnOk result (out.new.items ≡ out.old.items ++ subject_line sets.now f remark.now) }
{
    push_subject(out, sets, f)?;
    out.extend_from_slice(remark)
}

// Appends a member of a region, and a remark.
#[tactic(auto, unfolding(crate::specs::Lines::pair_line))]
fn push_pair_line(
    out: &mut Vec<u8>,
    sets: &Sets,
    f: Finding,
    remark: &[u8],
) -> Result<(), AllocError>
    ensures { OnOk result (out.new.items ≡ out.old.items ++ pair_line sets.now f remark.now) }
{
    push_pair(out, sets, f)?;
    out.extend_from_slice(remark)
}

// Appends a member, and a remark.
#[tactic(auto, unfolding(crate::specs::Lines::member_line))]
fn push_member_line(
    out: &mut Vec<u8>,
    sets: &Sets,
    f: Finding,
    remark: &[u8],
) -> Result<(), AllocError>
    ensures { OnOk result (out.new.items ≡ out.old.items ++ member_line sets.now f remark.now) }
{
    push_names(out, sets, f)?;
    out.extend_from_slice(remark)
}

// Appends beside what a least activity is more.
#[tactic(auto, unfolding(crate::specs::Lines::more_text))]
fn push_more(out: &mut Vec<u8>) -> Result<(), AllocError>
    ensures { OnOk result (out.new.items ≡ out.old.items ++ more_text) }
{
    out.extend_from_slice(b", more than ")?;
    out.extend_from_slice(param_word(TOTAL_ANNUAL_MAX_CAPACITY).as_bytes())
}

// Appends the greatest capacity.
#[tactic(auto, unfolding(crate::specs::Lines::reach_text))]
fn push_reach(out: &mut Vec<u8>, f: Finding) -> Result<(), AllocError>
    ensures { OnOk result (out.new.items ≡ out.old.items ++ reach_text f) }
{
    push_more(out)?;
    out.extend_from_slice(b" ")?;
    push_decimal(out, f.other)?;
    out.extend_from_slice(b" can do")
}

// Appends a least activity above what the greatest capacity can do.
#[tactic(auto, unfolding(crate::specs::Lines::reach_line))]
fn push_reach_line(out: &mut Vec<u8>, sets: &Sets, f: Finding) -> Result<(), AllocError>
    ensures { OnOk result (out.new.items ≡ out.old.items ++ reach_line sets.now f) }
{
    push_number(out, sets, f)?;
    push_reach(out, f)?;
    push_years(out, sets, f)?;
    out.extend_from_slice(b": no plan")
}
