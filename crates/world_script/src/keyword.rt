ghost use Rattle.std.specs.Prelude.{◌≡◌, Result, Ok, Err};
ghost use Rattle.world_script.specs.Forms.{feed_form, form_in, gateway_form, is_later, is_later_in, is_later_in_replay, is_setting, keyword_of, network_form, serve_form, shared_form};

use crate::fault::InputKind;
use crate::kind::ScriptKind;

/// The form of a line that does something, as its first word says it.
#[derive(Clone, Copy)]
pub enum Keyword {
    At,
    In,
    Mark,
    Close,
    End,
    Reserve,
    Limit,
    Offset,
    Profile,
    Rule,
    Gateways,
    Nodes,
    Submit,
    Tick,
    Halt,
    Start,
    Deliver,
    Flow,
    Mix,
    Commit,
    Write,
    Redirect,
    Stop,
    Open,
    Arm,
    Fail,
    ArmShelf,
    FailShelf,
    Settle,
}

impl Keyword {
    /// The form of a line of such a script whose first word is this one, or why it is refused.
    #[tactic(auto, using(crate::proofs::ScriptLemmas::in_feed))]
    pub fn of(kind: ScriptKind, word: &[u8]) -> Result<Keyword, InputKind>
        ensures { result ≡ keyword_of kind word.now }
    {
        // Most lines of a feed say this word.
        if kind == ScriptKind::Feed && word == b"in".as_slice() {
            return Ok(Keyword::In);
        }
        if is_later_in(kind, word) {
            return Err(InputKind::NotBuilt);
        }
        match form_in(kind, word) {
            Some(form) => Ok(form),
            None => Err(InputKind::Word),
        }
    }

    /// Whether lines of this form are settings, which stand before all others.
    pub fn is_setting(self) -> bool
        ensures { result ≡ is_setting self }
    {
        matches!(
            self,
            Keyword::Reserve
                | Keyword::Limit
                | Keyword::Offset
                | Keyword::Profile
                | Keyword::Rule
                | Keyword::Gateways
                | Keyword::Nodes
        )
    }
}

fn form_in(kind: ScriptKind, word: &[u8]) -> Option<Keyword>
    ensures { result ≡ form_in kind word.now }
{
    if kind == ScriptKind::Serve {
        return serve_form(word);
    }
    if let Some(form) = shared_form(word) {
        return Some(form);
    }
    if kind == ScriptKind::Feed {
        return feed_form(word);
    }
    if let Some(form) = network_form(word) {
        return Some(form);
    }
    gateway_form(word)
}

/// The forms of the settings of a gateway that serves, and of their end.
fn serve_form(word: &[u8]) -> Option<Keyword>
    ensures { result ≡ serve_form word.now }
{
    if word == b"end".as_slice() {
        Some(Keyword::End)
    } else if word == b"limit".as_slice() {
        Some(Keyword::Limit)
    } else if word == b"offset".as_slice() {
        Some(Keyword::Offset)
    } else if word == b"profile".as_slice() {
        Some(Keyword::Profile)
    } else if word == b"rule".as_slice() {
        Some(Keyword::Rule)
    } else {
        None
    }
}

/// The forms that feeds and replays have.
fn shared_form(word: &[u8]) -> Option<Keyword>
    ensures { result ≡ shared_form word.now }
{
    if word == b"at".as_slice() {
        Some(Keyword::At)
    } else if word == b"mark".as_slice() {
        Some(Keyword::Mark)
    } else if word == b"close".as_slice() {
        Some(Keyword::Close)
    } else if word == b"end".as_slice() {
        Some(Keyword::End)
    } else if word == b"reserve".as_slice() {
        Some(Keyword::Reserve)
    } else if word == b"limit".as_slice() {
        Some(Keyword::Limit)
    } else if word == b"offset".as_slice() {
        Some(Keyword::Offset)
    } else if word == b"profile".as_slice() {
        Some(Keyword::Profile)
    } else if word == b"rule".as_slice() {
        Some(Keyword::Rule)
    } else {
        None
    }
}

fn feed_form(word: &[u8]) -> Option<Keyword>
    ensures { result ≡ feed_form word.now }
{
    if word == b"in".as_slice() {
        Some(Keyword::In)
    } else {
        None
    }
}

/// The forms of a replay's lines on nodes and messages, and how many nodes and gateways there are.
fn network_form(word: &[u8]) -> Option<Keyword>
    ensures { result ≡ network_form word.now }
{
    if word == b"gateways".as_slice() {
        Some(Keyword::Gateways)
    } else if word == b"nodes".as_slice() {
        Some(Keyword::Nodes)
    } else if word == b"submit".as_slice() {
        Some(Keyword::Submit)
    } else if word == b"tick".as_slice() {
        Some(Keyword::Tick)
    } else if word == b"halt".as_slice() {
        Some(Keyword::Halt)
    } else if word == b"start".as_slice() {
        Some(Keyword::Start)
    } else if word == b"deliver".as_slice() {
        Some(Keyword::Deliver)
    } else if word == b"flow".as_slice() {
        Some(Keyword::Flow)
    } else if word == b"mix".as_slice() {
        Some(Keyword::Mix)
    } else {
        None
    }
}

/// The forms of a replay's lines on gateways.
fn gateway_form(word: &[u8]) -> Option<Keyword>
    ensures { result ≡ gateway_form word.now }
{
    if word == b"commit".as_slice() {
        Some(Keyword::Commit)
    } else if word == b"write".as_slice() {
        Some(Keyword::Write)
    } else if word == b"redirect".as_slice() {
        Some(Keyword::Redirect)
    } else if word == b"stop".as_slice() {
        Some(Keyword::Stop)
    } else if word == b"open".as_slice() {
        Some(Keyword::Open)
    } else if word == b"arm".as_slice() {
        Some(Keyword::Arm)
    } else if word == b"fail".as_slice() {
        Some(Keyword::Fail)
    } else if word == b"armshelf".as_slice() {
        Some(Keyword::ArmShelf)
    } else if word == b"failshelf".as_slice() {
        Some(Keyword::FailShelf)
    } else if word == b"settle".as_slice() {
        Some(Keyword::Settle)
    } else {
        None
    }
}

/// Whether lines of this word are to come in a script of this kind.
fn is_later_in(kind: ScriptKind, word: &[u8]) -> bool
    ensures { result ≡ is_later_in kind word.now }
{
    match kind {
        ScriptKind::Feed => is_later(word),
        ScriptKind::Replay => is_later(word) || is_later_in_replay(word),
        ScriptKind::Serve => false,
    }
}

fn is_later(word: &[u8]) -> bool
    ensures { result ≡ is_later word.now }
{
    word == b"renew".as_slice()
}

fn is_later_in_replay(word: &[u8]) -> bool
    ensures { result ≡ is_later_in_replay word.now }
{
    word == b"store".as_slice()
        || word == b"nodestop".as_slice()
        || word == b"nodeopen".as_slice()
        || word == b"nodearm".as_slice()
        || word == b"nodefail".as_slice()
        || word == b"standby".as_slice()
        || word == b"ship".as_slice()
        || word == b"takeover".as_slice()
}
