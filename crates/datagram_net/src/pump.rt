use crate::answer::Answer;
use crate::limits::{LINGER_TURNS, MAX_QUIET, SIGN_TURNS};
use crate::link::Link;
use crate::link_post::LinkPost;
use datagram_link::Arrival;
use game_io::Failed;
use std::alloc::Global;
use std::sync::Arc;
use std::sync::atomic::{AtomicBool, Ordering};

/// What makes the turns of a link, whatever its halves do.
#[derive(Drop)]
pub(crate) struct Pump {
    alloc: Global,
    link: Arc<Link, Global>,
    post: LinkPost,
    /// What is said to the caller until something comes over the link.
    answer: Option<Answer>,
    /// Once this is true the link is lost.
    cut: Arc<AtomicBool, Global>,
    /// How many turns in a row were quiet.
    quiet: u32,
    /// How many quiet turns were made since the halves were handed back.
    lingered: u32,
}

impl Pump {
    /// A pump that has made no turn.
    pub(crate) fn new(
        alloc: Global,
        link: Arc<Link, Global>,
        post: LinkPost,
        answer: Option<Answer>,
        cut: Arc<AtomicBool, Global>,
    ) -> Self {
        Pump {
            alloc,
            link,
            post,
            answer,
            cut,
            quiet: 0,
            lingered: 0,
        }
    }

    /// Makes turns until the link has ended, or its halves were handed back and all that was sent is
    /// acknowledged, or was sent again for long enough. Then it tells the other side.
    pub(crate) fn run(&mut self) {
        for _turn in 0..u64::MAX {
            let came = self.post.fetch();
            self.count(&came);
            if !self.turn(&came) {
                break;
            }
        }
        self.post.say_farewell();
        if let Some(mut state) = self.link.seize() {
            state.finish();
        }
        self.link.changed.notify_all();
    }

    /// Counts a turn, and answers the caller once more where it may not have heard.
    fn count(&mut self, came: &Result<Arrival, Failed>) {
        match came {
            Ok(Arrival::Quiet) => {
                self.quiet = self.quiet.saturating_add(1);
                if let Some(answer) = &self.answer {
                    answer.give_again(self.quiet);
                }
            }
            _ => {
                self.quiet = 0;
                self.answer = None;
            }
        }
    }

    /// Makes a turn by what was fetched. It answers whether there is another one.
    fn turn(&mut self, came: &Result<Arrival, Failed>) -> bool {
        let is_dropped = Arc::strong_count(&self.link) == 1;
        let Some(mut state) = self.link.seize() else {
            return false;
        };
        let kept_waiting = (state.is_empty(), state.is_full());
        if self.cut.load(Ordering::SeqCst) {
            state.cut(self.alloc);
        } else if came.is_err() || self.quiet >= MAX_QUIET {
            state.lose();
        } else if self.post.has_farewell() {
            state.end_by_other();
        } else {
            state.turn(self.alloc, &mut self.post);
            if self.quiet != 0 && self.quiet % SIGN_TURNS == 0 {
                state.give_sign(self.alloc, &mut self.post);
            }
        }
        let goes_on = state.is_open();
        let is_left = is_dropped || state.is_left();
        if is_left && self.quiet != 0 {
            self.lingered = self.lingered.saturating_add(1);
        }
        let is_over = is_left && (state.is_acknowledged() || self.lingered > LINGER_TURNS);
        let has_changed = kept_waiting != (state.is_empty(), state.is_full());
        drop(state);
        if has_changed {
            self.link.changed.notify_all();
        }
        goes_on && !is_over
    }
}
