// What stands behind the type of a variable.

ghost use Rattle.std.specs.Prelude.{◌≡◌};
ghost use Rattle.text_forms.specs.Gives.{left};
ghost use Rattle.text_forms.specs.Reading.{read, opens};
ghost use Rattle.text_forms.specs.Kept.{is_unsigned};
ghost use Rattle.ir_types.specs.ItemForms.{extra_behind, extra, initialiser_stops, behind_type};
ghost use Rattle.kept_runs.specs.Stopping.{stops_of};
ghost use Rattle.ir_reader_items.specs.Lines.{KeepsBehind, GivesPlainly};
ghost use Rattle.ir_reader_items.specs.Extras.{with_extra, nothing_seen, section_kept, comdat_name_kept, comdat_kept, number_kept, alignment_kept, extras_kept, KeepsExtra};

use ir_types::{Extra, Kept};
use kept_runs::{Stops, keep, keep_attachment, keep_up_to, keep_word};
use lists::Texts;
use std::alloc::Global;
use text_forms::{Cursor, SyntaxFault, TokenKind};

static STOP_KINDS: [TokenKind; 1] = [TokenKind::Comma];

static STOP_WORDS: [&[u8]; 5] = [
    b"source_filename",
    b"target",
    b"declare",
    b"define",
    b"attributes",
];

static STOPS_BEFORE_EQUAL: [TokenKind; 4] = [
    TokenKind::Local,
    TokenKind::Global,
    TokenKind::Comdat,
    TokenKind::Metadata,
];

/// Which of what may stand there once stood there.
#[derive(Clone, Copy)]
struct Seen {
    section: bool,
    comdat: bool,
    alignment: bool,
}

impl Seen {
    /// None of them.
    fn nothing() -> Seen
        ensures { result ≡ nothing_seen }
    {
        Seen {
            section: false,
            comdat: false,
            alignment: false,
        }
    }

    /// With one more, where that may stand there.
    fn with(self, extra: Extra) -> Option<Seen>
        ensures { result ≡ with_extra self extra }
    {
        match extra {
            Extra::Section if !self.section => Some(Seen {
                section: true,
                ..self
            }),
            Extra::Comdat if !self.comdat => Some(Seen {
                comdat: true,
                ..self
            }),
            Extra::Alignment if !self.alignment => Some(Seen {
                alignment: true,
                ..self
            }),
            Extra::Attachment => Some(self),
            _ => None,
        }
    }
}

/// Keeps `section` and a string.
fn keep_section<'t>(tokens: Cursor<'t>, texts: &mut Texts) -> Result<Cursor<'t>, SyntaxFault>
    ensures { KeepsBehind texts.old texts.new result (read section_kept (left tokens.entry)) }
{
    let rest = keep_word(tokens, b"section", texts)?;
    keep(rest, TokenKind::Quoted, texts)
}

/// Keeps a comdat's name in parentheses, or nothing.
fn keep_comdat_name<'t>(tokens: Cursor<'t>, texts: &mut Texts) -> Result<Cursor<'t>, SyntaxFault>
    ensures { KeepsBehind texts.old texts.new result (read comdat_name_kept (left tokens.entry)) }
{
    if !tokens.is_next(TokenKind::LeftParen) {
        return Ok(tokens);
    }
    let rest = keep(tokens, TokenKind::LeftParen, texts)?;
    let rest = keep(rest, TokenKind::Comdat, texts)?;
    keep(rest, TokenKind::RightParen, texts)
}

/// Keeps `comdat`, and a comdat's name in parentheses.
fn keep_comdat<'t>(tokens: Cursor<'t>, texts: &mut Texts) -> Result<Cursor<'t>, SyntaxFault>
    ensures { KeepsBehind texts.old texts.new result (read comdat_kept (left tokens.entry)) }
{
    let rest = keep_word(tokens, b"comdat", texts)?;
    keep_comdat_name(rest, texts)
}

/// Whether these are digits without a sign.
fn is_unsigned(digits: &[u8]) -> bool
    ensures { result ≡ is_unsigned digits.now }
{
    match digits.first() {
        Some(first) => *first != b'-',
        None => false,
    }
}

/// Keeps a number without a sign.
fn keep_unsigned<'t>(tokens: Cursor<'t>, texts: &mut Texts) -> Result<Cursor<'t>, SyntaxFault>
    ensures { KeepsBehind texts.old texts.new result (read number_kept (left tokens.entry)) }
{
    let (digits, rest) = tokens.one(TokenKind::Number)?;
    if !is_unsigned(digits) {
        return Err(tokens.refusal());
    }
    texts.push(digits)?;
    Ok(rest)
}

/// Keeps `align` and a number.
fn keep_alignment<'t>(tokens: Cursor<'t>, texts: &mut Texts) -> Result<Cursor<'t>, SyntaxFault>
    ensures { KeepsBehind texts.old texts.new result (read alignment_kept (left tokens.entry)) }
{
    let rest = keep_word(tokens, b"align", texts)?;
    keep_unsigned(rest, texts)
}

/// Keeps what may stand behind a comma.
#[tactic(auto, unfolding(ir_types::specs::ItemForms::extra_behind))]
fn keep_behind_comma<'t>(
    alloc: Global,
    tokens: Cursor<'t>,
    texts: &mut Texts,
) -> Result<(Extra, Cursor<'t>), SyntaxFault>
    ensures { KeepsExtra texts.old texts.new result (read extra_behind (left tokens.entry)) }
{
    if tokens.behind_word(b"section").is_some() {
        let rest = keep_section(tokens, texts)?;
        return Ok((Extra::Section, rest));
    }
    if tokens.behind_word(b"comdat").is_some() {
        let rest = keep_comdat(tokens, texts)?;
        return Ok((Extra::Comdat, rest));
    }
    if tokens.behind_word(b"align").is_some() {
        let rest = keep_alignment(tokens, texts)?;
        return Ok((Extra::Alignment, rest));
    }
    let rest = keep_attachment(alloc, tokens, texts)?;
    Ok((Extra::Attachment, rest))
}

/// Keeps a comma and what stands behind it.
fn keep_extra<'t>(
    alloc: Global,
    tokens: Cursor<'t>,
    texts: &mut Texts,
) -> Result<(Extra, Cursor<'t>), SyntaxFault>
    ensures { KeepsExtra texts.old texts.new result (read extra (left tokens.entry)) }
{
    let rest = keep(tokens, TokenKind::Comma, texts)?;
    keep_behind_comma(alloc, rest, texts)
}

/// Whether what may stand behind a comma is next.
#[tactic(auto, unfolding(ir_types::specs::ItemForms::extra_behind, text_forms::specs::Kept::attachment))]
fn begins_behind_comma(tokens: Cursor<'_>) -> bool
    ensures { result ≡ opens extra_behind (left tokens.entry) }
{
    tokens.behind_word(b"section").is_some()
        || tokens.behind_word(b"comdat").is_some()
        || tokens.behind_word(b"align").is_some()
        || tokens.is_next(TokenKind::Metadata)
}

/// Whether a comma and what may stand behind it are next.
#[tactic(auto, unfolding(ir_types::specs::ItemForms::extra_behind, text_forms::specs::Kept::attachment))]
fn begins_extra(tokens: Cursor<'_>) -> bool
    ensures { result ≡ opens extra (left tokens.entry) }
{
    match tokens.split_first() {
        Some((TokenKind::Comma, _, rest)) => begins_behind_comma(rest),
        _ => false,
    }
}

/// Keeps as many as stand there, no two of them sections, comdats or alignments.
fn keep_extras<'t>(
    alloc: Global,
    tokens: Cursor<'t>,
    texts: &mut Texts,
) -> Result<Cursor<'t>, SyntaxFault>
    ensures { KeepsBehind texts.old texts.new result (read extras_kept (left tokens.entry)) }
{
    let mut seen = Seen::nothing();
    let mut rest = tokens;
    'more: while begins_extra(rest) {
        let (extra, after) = keep_extra(alloc, rest, texts)?;
        let Some(now) = seen.with(extra) else {
            return Err(rest.refusal());
        };
        seen = now;
        rest = after;
    }
    Ok(rest)
}

/// Where an initialiser ends.
#[tactic(auto, unfolding(ir_types::specs::ItemForms::initialiser_stops, ir_types::specs::Words::item_words))]
fn initialiser_stops() -> Stops<'static>
    ensures { stops_of result ≡ initialiser_stops }
{
    Stops {
        kinds: &STOP_KINDS,
        words: &STOP_WORDS,
        before_equal: &STOPS_BEFORE_EQUAL,
    }
}

/// The initialiser and what stands behind it.
#[tactic(auto, unfolding(ir_types::specs::ItemForms::behind_type))]
pub fn kept_behind_type<'t>(
    alloc: Global,
    tokens: Cursor<'t>,
) -> Result<(Kept, Cursor<'t>), SyntaxFault>
    ensures { GivesPlainly result (read behind_type (left tokens.entry)) }
{
    let mut texts = Texts::new(alloc);
    let rest = keep_up_to(alloc, tokens, initialiser_stops(), &mut texts)?;
    let rest = keep_extras(alloc, rest, &mut texts)?;
    Ok((texts, rest))
}
