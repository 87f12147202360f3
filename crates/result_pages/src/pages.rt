//! The page of a plan, and of two that are compared.

ghost use Rattle.std.specs.Prelude.{◌≡◌, ◌++◌, ◌∷◌, [], option_map, IfOk, OnOk};
ghost use Rattle.result_pages.specs.Pages.{changes_text, compare_page, drawing_script, page_end, page_start, part_of, part_text, plan_page, reading_script, title_of, title_text};

use crate::escaping::push_escaped;
use crate::page_parts::{
    CHANGES_END, CHANGES_START, COMPARED, NAME_END, PAGE_BODY, PAGE_END, PAGE_START, PLAN_END,
    PLAN_NAME, PLAN_SAID, PLAN_TABLES, SCRIPT_START,
};
use crate::page_style::STYLE;
use crate::script_drawing::SCRIPT_DRAWING;
use crate::script_figures::SCRIPT_FIGURES;
use crate::script_numbers::SCRIPT_NUMBERS;
use crate::script_page::SCRIPT_PAGE;
use crate::script_series::SCRIPT_SERIES;
use crate::script_tables::SCRIPT_TABLES;
use std::alloc::{AllocError, Global};

/// What names data on a page.
#[derive(Clone, Copy)]
pub struct Title<'a> {
    /// The name of the data file, without its folders.
    pub name: &'a [u8],
    /// The text of the file of changes, where there is one.
    pub changes: Option<&'a [u8]>,
}

/// What a page shows of one data file.
#[derive(Clone, Copy)]
pub struct PagePart<'a> {
    /// The data file.
    pub title: Title<'a>,
    /// What is said of the answer, in lines.
    pub said: &'a [u8],
    /// The tables that charts are drawn from, one after another, each after a line with its name.
    pub tables: &'a [u8],
}

/// The page of one data file. Refuses where memory runs out.
#[tactic(auto, unfolding(crate::specs::Pages::plan_page))]
pub fn plan_page(alloc: Global, part: PagePart<'_>) -> Result<Vec<u8>, AllocError>
    ensures { IfOk result (λ text. text.items ≡ plan_page (part_of part.entry)) }
{
    let mut out = Vec::new(alloc);
    push_start(&mut out)?;
    push_part(&mut out, part)?;
    push_end(&mut out, b"")?;
    Ok(out)
}

/// The page of two data files whose plans are compared: of both, and the lines that tell how their costs differ. Refuses where memory
/// runs out.
#[tactic(auto, unfolding(crate::specs::Pages::compare_page))]
pub fn compare_page(
    alloc: Global,
    first: PagePart<'_>,
    second: PagePart<'_>,
    compared: &[u8],
) -> Result<Vec<u8>, AllocError>
    ensures { IfOk result (λ text. text.items ≡ compare_page (part_of first.entry) (part_of second.entry) compared.now) }
{
    let mut out = Vec::new(alloc);
    push_start(&mut out)?;
    push_part(&mut out, first)?;
    push_part(&mut out, second)?;
    push_end(&mut out, compared)?;
    Ok(out)
}

// Appends what comes before the first data file.
#[tactic(auto, unfolding(crate::specs::Pages::page_start))]
fn push_start(out: &mut Vec<u8>) -> Result<(), AllocError>
    ensures { OnOk result (out.new.items ≡ out.old.items ++ page_start) }
{
    out.extend_from_slice(PAGE_START)?;
    out.extend_from_slice(STYLE)?;
    out.extend_from_slice(PAGE_BODY)
}

// Appends what the page has of a data file.
#[tactic(auto, unfolding(crate::specs::Pages::part_text))]
fn push_part(out: &mut Vec<u8>, part: PagePart<'_>) -> Result<(), AllocError>
    ensures { OnOk result (out.new.items ≡ out.old.items ++ part_text (part_of part.entry)) }
{
    push_title(out, part.title)?;
    out.extend_from_slice(PLAN_SAID)?;
    push_escaped(out, part.said)?;
    out.extend_from_slice(PLAN_TABLES)?;
    push_escaped(out, part.tables)?;
    out.extend_from_slice(PLAN_END)
}

// Appends the name of a data file, and its changes.
#[tactic(auto, unfolding(crate::specs::Pages::title_text))]
fn push_title(out: &mut Vec<u8>, title: Title<'_>) -> Result<(), AllocError>
    ensures { OnOk result (out.new.items ≡ out.old.items ++ title_text (title_of title.entry)) }
{
    out.extend_from_slice(PLAN_NAME)?;
    push_escaped(out, title.name)?;
    out.extend_from_slice(NAME_END)?;
    push_changes(out, title.changes)
}

// Appends the text of a file of changes, where there is one.
#[tactic(auto, unfolding(crate::specs::Pages::changes_text))]
fn push_changes(out: &mut Vec<u8>, changes: Option<&[u8]>) -> Result<(), AllocError>
    ensures { OnOk result (out.new.items ≡ out.old.items ++ changes_text (option_map (λ text. text.now) changes.entry)) }
{
    let Some(text) = changes else {
        return Ok(());
    };
    out.extend_from_slice(CHANGES_START)?;
    push_escaped(out, text)?;
    out.extend_from_slice(CHANGES_END)
}

// Appends what comes after the last data file: how the costs of two plans differ, and the script.
#[tactic(auto, unfolding(crate::specs::Pages::page_end))]
fn push_end(out: &mut Vec<u8>, compared: &[u8]) -> Result<(), AllocError>
    ensures { OnOk result (out.new.items ≡ out.old.items ++ page_end compared.now) }
{
    out.extend_from_slice(COMPARED)?;
    push_escaped(out, compared)?;
    out.extend_from_slice(SCRIPT_START)?;
    push_reading(out)?;
    push_drawing(out)?;
    out.extend_from_slice(PAGE_END)
}

// Appends the part of the script that reads the texts and makes series of them.
#[tactic(auto, unfolding(crate::specs::Pages::reading_script))]
fn push_reading(out: &mut Vec<u8>) -> Result<(), AllocError>
    ensures { OnOk result (out.new.items ≡ out.old.items ++ reading_script) }
{
    out.extend_from_slice(SCRIPT_NUMBERS)?;
    out.extend_from_slice(SCRIPT_TABLES)?;
    out.extend_from_slice(SCRIPT_SERIES)
}

// Appends the part of the script that draws.
#[tactic(auto, unfolding(crate::specs::Pages::drawing_script))]
fn push_drawing(out: &mut Vec<u8>) -> Result<(), AllocError>
    ensures { OnOk result (out.new.items ≡ out.old.items ++ drawing_script) }
{
    out.extend_from_slice(SCRIPT_DRAWING)?;
    out.extend_from_slice(SCRIPT_FIGURES)?;
    out.extend_from_slice(SCRIPT_PAGE)
}
