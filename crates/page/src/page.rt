// The operations Page and Roll, which are one but for the form of the lines.
ghost use Rattle.std.specs.Prelude.{◌≡◌};
ghost use Rattle.model.specs.StoredModel.{model_at};
ghost use Rattle.lines.specs.Roll.{form_length};
ghost use Rattle.page.specs.PagePromise.{page_outcome, FormPromise, PagePromise, RollPromise};
ghost use Rattle.page.specs.Inner.PageLists.{FirstShort, PageLists, PageMade};

use lines::lines::{Form, PagePosition};
use model::refusal::{Refusal, check_good};
use text::limits::{
    DISTANCES_LENGTH, INDEX_LENGTH, PAGE_LENGTH, ROLES_LENGTH, ROLL_LENGTH, RUN_LENGTH,
    STORE_LENGTH, TABLE_LENGTH, WORD_LENGTH,
};

// The least length of the list of bytes.
fn form_length(form: Form) -> usize
    ensures { result ≡ form_length form }
{
    match form {
        Form::Page => PAGE_LENGTH,
        Form::Roll => ROLL_LENGTH,
    }
}

// The first of the lists that is below its least length, by their lengths, counted from 1.
pub fn first_short(
    store: usize,
    distances: usize,
    table: usize,
    run: usize,
    word: usize,
    out: usize,
    form: Form,
) -> Option<usize>
    ensures { FirstShort form result store distances table run word out }
{
    if store < STORE_LENGTH {
        return Some(1);
    }
    if distances < DISTANCES_LENGTH {
        return Some(2);
    }
    if table < TABLE_LENGTH {
        return Some(3);
    }
    if run < RUN_LENGTH {
        return Some(4);
    }
    if word < WORD_LENGTH {
        return Some(5);
    }
    if out < form_length(form) {
        return Some(6);
    }
    None
}

// The page of a good store in a form: judged once. The lists are lent one by one, as C lends them: a struct of them
// would be made in each function that C or a program reaches, and taken apart again in the next.
pub fn page_good(
    store: &[u16],
    distances: &mut [u16],
    table: &mut [u8],
    run: &mut [u16],
    word: &mut [u16],
    out: &mut [u8],
    form: Form,
) -> PagePosition
    requires { PageLists form store.now distances.old table.old run.old word.old out.old }
    ensures { PageMade form (model_at store.now) result.at.at distances.old
        table.old run.old word.old out.old distances.new
        table.new run.new word.new out.new }
{
    let mut begins = [0u16; INDEX_LENGTH];
    let mut roles = [0u16; ROLES_LENGTH];
    let v = judge::judge::judge_good(store, &mut begins, &mut roles, distances, table);
    lines::whole::judged_page(
        store, &begins, &roles, distances, table, v, run, word, out, form,
    )
}

// Fills the distances and the table, the run of a refused model, and the word where it prints one; puts the page in its
// form at the front of `out`, and answers the bytes written.
fn page_in_form(
    store: &[u16],
    distances: &mut [u16],
    table: &mut [u8],
    run: &mut [u16],
    word: &mut [u16],
    out: &mut [u8],
    form: Form,
) -> Result<usize, Refusal>
    ensures { FormPromise form store.now distances.old table.old
        run.old word.old out.old (page_outcome result) distances.new
        table.new run.new word.new out.new }
{
    let short = first_short(
        store.len(),
        distances.len(),
        table.len(),
        run.len(),
        word.len(),
        out.len(),
        form,
    );
    if let Some(place) = short {
        return Err(Refusal::ShortList(place));
    }
    check_good(store)?;
    let end = page_good(store, distances, table, run, word, out, form);
    Ok(end.at.at)
}

// Page: in at least 5,000 bytes.
pub fn page(
    store: &[u16],
    distances: &mut [u16],
    table: &mut [u8],
    run: &mut [u16],
    word: &mut [u16],
    out: &mut [u8],
) -> Result<usize, Refusal>
    ensures { PagePromise store.now distances.old table.old run.old
        word.old out.old (page_outcome result) distances.new table.new
        run.new word.new out.new }
{
    page_in_form(store, distances, table, run, word, out, Form::Page)
}

// Roll: the same lines on the receipt roll, in at least 35,840 bytes.
pub fn roll(
    store: &[u16],
    distances: &mut [u16],
    table: &mut [u8],
    run: &mut [u16],
    word: &mut [u16],
    out: &mut [u8],
) -> Result<usize, Refusal>
    ensures { RollPromise store.now distances.old table.old run.old
        word.old out.old (page_outcome result) distances.new table.new
        run.new word.new out.new }
{
    page_in_form(store, distances, table, run, word, out, Form::Roll)
}
