//! A speaker, which falls silent at the first failed allocation.
ghost use Rattle.std.specs.Prelude.{◌≡◌, [], None, false};
ghost use Rattle.model.specs.World.{World};
ghost use Rattle.views.specs.ShownWorlds.{world_of};
ghost use Rattle.speaking.specs.Edits.{Settles};
ghost use Rattle.speaking.specs.Events.{Begins, IsStillSaying, KnowsRightly};
ghost use Rattle.speaking.specs.News.{no_news};
ghost use Rattle.speaking.specs.Speakers.{said_by, waiting_in, text_held_by, news_of, fell_silent};

use crate::above::LookUps;
use crate::edits::FocusedText;
use crate::news::News;
use crate::whole::{say_whole_end, say_whole_move};
use accesskit_consumer::{FullNodeId, StateRef};
use phrases::Voice;
use std::alloc::Global;

/// Says the changes of a tree, as a handler of it. [`Speaker::settle`] ends a step and says what is to be said of it, and
/// [`Speaker::said`] returns the lines said since they were last cleared.
#[derive(Drop)]
pub struct Speaker {
    pub(crate) alloc: Global,
    pub(crate) voice: Voice,
    /// Whether an allocation has failed. From then on nothing more is said.
    pub(crate) is_silent: bool,
    /// The focused text as it was last said.
    pub(crate) text: Option<FocusedText>,
    /// What is new in live regions, to be said at the end of the step.
    pub(crate) news: News,
    /// What nodes of a step say together with those above them.
    pub(crate) looks: LookUps,
}

impl Speaker {
    /// A speaker that has said nothing yet.
    pub fn new(alloc: Global) -> Speaker
        ensures said { said_by result ≡ [] }
        ensures waiting { waiting_in result ≡ [] }
        ensures text { text_held_by result ≡ None }
        ensures news { news_of result ≡ no_news }
        ensures silent { fell_silent result ≡ false }
    {
        Speaker {
            alloc,
            voice: Voice::new(alloc),
            is_silent: false,
            text: None,
            news: News::new(alloc),
            looks: LookUps::new(alloc),
        }
    }

    /// Says the focus of a new tree. If memory runs out, the speaker falls silent, and says nothing of it.
    pub fn begin(&mut self, state: StateRef)
        requires { fell_silent self.old ≡ false }
        ensures { Begins (world_of state.entry) self.old self.new }
    {
        let focus = state.focus();
        self.is_silent = say_whole_move(self.alloc, &mut self.voice, None, focus.as_ref()).is_err();
    }

    /// Begins a step: forgets what was looked up in the last one. Each event that the speaker receives until it ends has to be of that
    /// step.
    pub fn begin_step(&mut self)
        ensures ready { (old new : World) → KnowsRightly old new self.new }
        ensures same { IsStillSaying self.old self.new }
    {
        self.looks = LookUps::new(self.alloc);
    }

    /// Ends a step, after which the node with this id is focused. Now that all events were reported, all is said: assertive live regions
    /// first, then what the events said of the focus and what changed in the focused text, and then polite live regions, those in the
    /// order of the document. If memory runs out, the speaker falls silent, and has said what it had said before.
    pub fn settle(&mut self, state: StateRef, focus: Option<FullNodeId>)
        ensures { Settles (world_of state.entry) focus self.old self.new }
    {
        if self.is_silent {
            return;
        }
        let held = self.text.take();
        match say_whole_end(self.alloc, &mut self.voice, held, &self.news, state, focus) {
            Ok(text) => {
                self.text = text;
                self.news = News::new(self.alloc);
            }
            Err(_) => self.is_silent = true,
        }
    }

    /// The lines that were said.
    pub fn said(&self) -> &str
        ensures { result.now ≡ said_by self.now }
    {
        self.voice.said()
    }

    /// Whether an allocation has failed, so that something was not said. From then on nothing more is said.
    pub fn is_silent(&self) -> bool
        ensures { result ≡ fell_silent self.now }
    {
        self.is_silent
    }

    /// Drops the lines that were said. Postponed lines are still said at the end of the step.
    pub fn clear_said(&mut self)
        ensures said { said_by self.new ≡ [] }
        ensures waiting { waiting_in self.new ≡ waiting_in self.old }
        ensures text { text_held_by self.new ≡ text_held_by self.old }
        ensures news { news_of self.new ≡ news_of self.old }
        ensures silent { fell_silent self.new ≡ fell_silent self.old }
    {
        self.voice.clear_said();
    }
}
