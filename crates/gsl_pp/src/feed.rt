//! The live tokens of a unit, drawn one at a time.

ghost use Rattle.std.specs.Prelude.{◌≡◌, ◌≤◌, ◌∷◌, [], length, take, drop, map, Some, Err, IfOk, OnOk, IfErr, MatchOption, if◌then◌else◌};
ghost use Rattle.std.specs.Option.{option_map};
ghost use Rattle.std.specs.List.{prefix_len};
ghost use Rattle.std.specs.Str.{bytes_eq};
ghost use Rattle.indexmap.specs.IndexMap.{insert_entry};
ghost use Rattle.gsl_base.specs.Checked.{Gives};
ghost use Rattle.gsl_base.specs.declared.fault.Refusal.{Refusal};
ghost use Rattle.gsl_macros.specs.Expanding.{ended as at_its_end, fresh, give, traced};
ghost use Rattle.gsl_macros.specs.Steps as steps;
ghost use Rattle.gsl_pp.specs.Directives.{is_live, outermost, with_left};
ghost use Rattle.gsl_pp.specs.Feeding as feeding;
ghost use Rattle.gsl_pp.specs.Unit as spec;

use crate::directive::direct;
use crate::group::Groups;
use crate::state::{MAX_TOKENS, State};
use crate::version::{at, versioned};
use crate::word::is_hash;
use gsl_base::{Code, Fault, Memory, Place, Raw, Raws, Refusal, Text, Token, Tokens};
use gsl_lex::cook;
use gsl_macros::{
    Hid, MAX_DEPTH, Macro, Macros, Shift, Stream, Table, Unread, fault, next, next_plain,
};
use std::alloc::Global;
use std::mem::replace;

/// A place in a unit.
#[derive(Drop)]
pub struct Feed {
    alloc: Global,
    state: State,
    /// What is left of the segment.
    stream: Stream,
    /// What stands behind it.
    rest: Unread,
    /// Once there was a refusal, it is given again.
    refused: Option<Refusal>,
}

impl Feed {
    /// The start of the unit of this number. Each raw token is given up as it is drawn.
    pub fn new(alloc: Global, unit: u32, raws: Raws) -> Result<Feed, Memory>
        ensures { IfOk result (λ feed. feeding.feeds feed ≡ spec.unit_of unit raws) }
    {
        let state = initial(alloc, unit)?;
        let mut rest = Unread::of(raws);
        let fault = started(unit, &mut rest)?;
        Ok(Feed {
            alloc,
            state,
            stream: empty(alloc),
            rest,
            refused: refusal_of(fault),
        })
    }

    /// The next live token, or none at the end. After a refusal it gives the same refusal again.
    pub fn next(&mut self) -> Result<Option<Token>, Refusal>
        ensures next { feeding.Tells result (feeding.feeds self.old) (feeding.feeds self.new) }
        ensures again { (refusal : Refusal) → self.old.refused ≡ Some refusal → result ≡ Err refusal }
        ensures kept { IfErr result (λ refusal. self.new.refused ≡ Some refusal) }
    {
        if let Some(refusal) = self.refused {
            return Err(refusal);
        }
        match self.live() {
            Ok(token) => Ok(token),
            Err(refusal) => {
                self.refused = Some(refusal);
                Err(refusal)
            }
        }
    }

    /// A feed that is at its end, which takes no memory.
    pub fn ended(alloc: Global) -> Feed
        ensures { feeding.feeds result ≡ at_its_end 0 }
    {
        let shift = Shift {
            after: 0,
            number: 1,
            file: 0,
        };
        let macros = Macros {
            table: Table::new(alloc),
            shift,
        };
        let state = State {
            macros,
            groups: Groups::new(alloc),
            left: 0,
        };
        Feed {
            alloc,
            state,
            stream: empty(alloc),
            rest: Unread::none(alloc),
            refused: None,
        }
    }

    /// What is still to come, taken out of the feed, which is at its end then.
    pub fn taken(&mut self) -> Feed
        ensures { result ≡ self.old }
    {
        let end = Feed::ended(self.alloc);
        replace(self, end)
    }

    /// The next live token, where there was no refusal.
    fn live(&mut self) -> Result<Option<Token>, Refusal>
        ensures told { feeding.Tells result (feeding.goes_on self.old) (feeding.goes_on self.new) }
        ensures refused { self.new.refused ≡ self.old.refused }
    {
        if let Some(raw) = self.plain() {
            return Ok(Some(live_raw(raw)?));
        }
        match self.draw()? {
            Some(token) => Ok(Some(live(self.alloc, token)?)),
            None => Ok(None),
        }
    }

    /// The next token, where it is one of this segment that stands so in the source and names no macro, as most do.
    fn plain(&mut self) -> Option<Raw>
        ensures plain { MatchOption result (feeding.goes_on self.new ≡ feeding.goes_on self.old) (λ raw. feeding.goes_on self.old ≡ give (fresh raw) (feeding.goes_on self.new)) }
        ensures refused { self.new.refused ≡ self.old.refused }
    {
        plain(&mut self.state, &mut self.stream)
    }

    /// The next token that is given out.
    fn draw(&mut self) -> Result<Option<Hid>, Refusal>
        ensures drawn { steps.Draws result (feeding.goes_on self.old) (feeding.goes_on self.new) self.new.state.left }
        ensures refused { self.new.refused ≡ self.old.refused }
    {
        loop {
            if let Some(token) = self.draw_here()? {
                return Ok(Some(token));
            }
            let Some(first) = self.rest.take() else {
                return self.end();
            };
            self.turn(first)?;
        }
    }

    /// The next token of this segment.
    fn draw_here(&mut self) -> Result<Option<Hid>, Refusal>
        ensures drawn { feeding.DrawsHere result (feeding.goes_on self.old) (feeding.goes_on self.new) (spec.unit_from self.new.rest 0 self.new.state) }
        ensures rest { self.new.rest ≡ self.old.rest }
        ensures refused { self.new.refused ≡ self.old.refused }
    {
        draw(self.alloc, &mut self.state, &mut self.stream)
    }

    /// Behind the last token.
    fn end(&self) -> Result<Option<Hid>, Refusal>
        requires { feeding.goes_on self.now ≡ spec.at_end self.now.state (outermost self.now.state.groups) }
        ensures { steps.Draws result (spec.at_end self.now.state (outermost self.now.state.groups)) (feeding.goes_on self.now) self.now.state.left }
    {
        match self.state.groups.outermost() {
            Some(group) => Err(fault(group.place, Code::E0203)),
            None => Ok(None),
        }
    }

    /// Takes a directive, or begins a segment, with this token and those behind it.
    fn turn(&mut self, first: Raw) -> Result<(), Refusal>
        ensures turned { feeding.Turns result (spec.unit_from (first ∷ self.old.rest) 0 self.old.state) (feeding.goes_on self.new) }
        ensures less { OnOk result (length self.new.rest ≤ length self.old.rest) }
        ensures refused { self.new.refused ≡ self.old.refused }
    {
        if is_directive(&first) {
            let line = line_behind(&mut self.rest)?;
            direct(self.alloc, &mut self.state, first.place, line.as_slice())?;
            self.stream = empty(self.alloc);
        } else {
            let count = text_len(&self.rest);
            let text = text_behind(self.alloc, &mut self.rest, count)?;
            self.stream = self.segment(first, text)?;
        }
        Ok(())
    }

    /// What is looked at of a text.
    fn segment(&self, first: Raw, text: Unread) -> Result<Stream, Memory>
        ensures { IfOk result (λ stream. stream ≡ (if is_live self.now.state.groups then map fresh (first ∷ text) else [])) }
    {
        if self.state.groups.is_live() {
            Stream::begun(self.alloc, first, text)
        } else {
            Ok(empty(self.alloc))
        }
    }
}

/// The next token of a segment.
fn draw(alloc: Global, state: &mut State, stream: &mut Stream) -> Result<Option<Hid>, Refusal>
    ensures drawn { steps.Draws result (traced state.old.macros MAX_DEPTH stream.old state.old.left) (traced state.old.macros MAX_DEPTH stream.new state.new.left) state.new.left }
    ensures kept { state.new ≡ with_left state.old state.new.left }
{
    next(alloc, &state.macros, MAX_DEPTH, stream, &mut state.left)
}

fn plain(state: &mut State, stream: &mut Stream) -> Option<Raw>
    ensures { MatchOption result ((state.new ≡ state.old) × (stream.new ≡ stream.old)) (λ raw. (state.new ≡ with_left state.old state.new.left) × (traced state.old.macros MAX_DEPTH stream.old state.old.left ≡ give (fresh raw) (traced state.old.macros MAX_DEPTH stream.new state.new.left))) }
{
    next_plain(&state.macros, stream, &mut state.left)
}

/// No token.
fn empty(alloc: Global) -> Stream
    ensures { result ≡ [] }
{
    Stream::new(alloc, Unread::none(alloc))
}

/// Takes what stands on the line.
fn line_behind(rest: &mut Unread) -> Result<Raws, Memory>
    ensures front { IfOk result (λ line. line ≡ take (prefix_len spec.goes_on_line rest.old) rest.old) }
    ensures back { OnOk result (rest.new ≡ drop (prefix_len spec.goes_on_line rest.old) rest.old) }
{
    let count = line_len(rest);
    let line = rest.cut(count)?;
    Ok(line.into_raws())
}

/// Takes so many tokens of a text. Where no more follow they stay in place.
fn text_behind(alloc: Global, rest: &mut Unread, count: usize) -> Result<Unread, Memory>
    requires { count ≤ length rest.old }
    ensures front { IfOk result (λ text. text ≡ take count rest.old) }
    ensures back { OnOk result (rest.new ≡ drop count rest.old) }
{
    if count == rest.len() {
        return Ok(rest.cut_all(alloc));
    }
    rest.cut(count)
}

fn is_directive(raw: &Raw) -> bool
    ensures { result ≡ spec.is_directive raw.now }
{
    raw.starts_line && is_hash(raw)
}

fn line_len(rest: &Unread) -> usize
    ensures value { result ≡ prefix_len spec.goes_on_line rest.now }
    ensures within { result ≤ length rest.now }
{
    let mut left = rest.backward();
    let mut count = 0usize;
    while let [behind @ .., raw] = left {
        if raw.starts_line {
            return count;
        }
        count += 1;
        left = behind;
    }
    count
}

fn text_len(rest: &Unread) -> usize
    ensures value { result ≡ prefix_len spec.goes_on_text rest.now }
    ensures within { result ≤ length rest.now }
{
    let mut left = rest.backward();
    let mut count = 0usize;
    while let [behind @ .., raw] = left {
        if is_directive(raw) {
            return count;
        }
        count += 1;
        left = behind;
    }
    count
}

/// A token as it is given out.
#[tactic(auto, unfolding(crate::specs::Unit::live_of))]
fn live(alloc: Global, token: Hid) -> Result<Token, Refusal>
    ensures { Gives result (spec.live_of token) }
{
    token.spelled.cook(alloc, token.place)
}

/// The same of a token as it stands in the source.
#[tactic(auto, unfolding(crate::specs::Unit::live_of, gsl_lex::specs::Cooking::token_of))]
fn live_raw(raw: Raw) -> Result<Token, Refusal>
    ensures { Gives result (spec.live_of (fresh raw)) }
{
    cook(raw)
}

/// The fault with which a unit begins, if there is one; what stands behind `#version` is left.
fn started(unit: u32, rest: &mut Unread) -> Result<Option<Fault>, Memory>
    ensures { IfOk result (λ fault. spec.Starts fault rest.new unit rest.old) }
{
    let Some(first) = rest.take() else {
        return Ok(Some(at(Place { unit, line: 1 }, Code::E0211)));
    };
    if !is_directive(&first) {
        return Ok(Some(at(first.place, Code::E0211)));
    }
    let line = line_behind(rest)?;
    match versioned(first.place, line.as_slice()) {
        Ok(()) => Ok(None),
        Err(fault) => Ok(Some(fault)),
    }
}

fn refusal_of(fault: Option<Fault>) -> Option<Refusal>
    ensures { result ≡ option_map (λ f. Refusal.Source f) fault }
{
    match fault {
        Some(fault) => Some(Refusal::Source(fault)),
        None => None,
    }
}

/// Gives a name a macro.
fn predefine(alloc: Global, table: &mut Table, name: &str, meaning: Macro) -> Result<(), Memory>
    ensures { OnOk result (table.new ≡ insert_entry bytes_eq table.old name.now meaning) }
{
    table.set(Text::from_str(alloc, name)?, meaning)
}

/// The macros that every unit has.
fn predefined(alloc: Global) -> Result<Table, Memory>
    ensures { IfOk result (λ table. table ≡ spec.predefined) }
{
    let mut table = Table::new(alloc);
    predefine(alloc, &mut table, "__LINE__", Macro::Line)?;
    predefine(alloc, &mut table, "__FILE__", Macro::File)?;
    predefine(alloc, &mut table, "__VERSION__", Macro::Number(450))?;
    predefine(alloc, &mut table, "GL_core_profile", Macro::Number(1))?;
    predefine(alloc, &mut table, "VULKAN", Macro::Number(100))?;
    Ok(table)
}

/// The state of a unit behind `#version`.
fn initial(alloc: Global, unit: u32) -> Result<State, Memory>
    ensures { IfOk result (λ state. state ≡ spec.initial unit) }
{
    Ok(State {
        macros: Macros {
            table: predefined(alloc)?,
            shift: Shift {
                after: 0,
                number: 1,
                file: unit,
            },
        },
        groups: Groups::new(alloc),
        left: MAX_TOKENS,
    })
}

/// The live tokens of the unit of this number, or `Source` with its first fault.
pub fn preprocess(alloc: Global, unit: u32, raws: Raws) -> Result<Tokens, Refusal>
    ensures { Gives result (spec.preprocessed unit raws) }
{
    let mut list = Tokens::new(alloc);
    let mut feed = Feed::new(alloc, unit, raws)?;
    while let Some(token) = feed.next()? {
        list.push(token)?;
    }
    Ok(list)
}
