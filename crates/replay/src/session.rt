// What the program holds, and the calls of a script on it.
use crate::script::Script;
use crate::shown::Shown;
use basics::Refusal;
use checker::{Breach, Checker};
use command::Request;
use config::Config;
use controller::{Controller, Offered, Ticked};
use counts::{Uncounted, count_commands};
use duration::trace_duration;
use lending::{advance_through, offer_through, tick_through};
use limits::{BreachOn, check_within};
use reading::read_pair;
use stamps::DESL;
use std::fmt::Display;
use std::io::Stdout;
use walks::{Moved, Progress};
use writing::write_pair;

#[derive(Drop)]
pub(crate) struct Session {
    out: Stdout,
    config: Config,
    checker: Checker,
    controller: Controller,
}

// 0, or the refusal's number.
fn number<T: Drop>(answer: Result<T, Refusal>) -> u32 {
    answer.err().map_or(0, Refusal::number)
}

impl Session {
    // With a fresh checker and a fresh controller.
    pub(crate) fn fresh(out: Stdout, config: Config) -> Session {
        Session {
            out,
            config,
            checker: Checker::fresh(config),
            controller: Controller::fresh(config),
        }
    }

    // Makes the next call; None where it is not listed or the script ends inside it.
    pub(crate) fn call(&mut self, script: &mut Script<'_>) -> Option<()> {
        match script.number()? {
            1 => self.configure(script.config()?),
            2 => self.step(script.number()?, script.number()?),
            3 => self.check(script.trace()?),
            4 => self.offer(script.request()?, Controller::offer),
            5 => self.tick(script.number()?, Controller::tick),
            6 => self.answer(read_pair(self.config, script.pair()?).map(Shown)),
            7 => self.answer(write_pair(self.config, script.operation()?).map(Shown)),
            8 => self.count(script.trace()?),
            9 => self.waiting(),
            10 => self.walk(script.trace()?),
            11 => self.offer(script.request()?, offer_through),
            12 => self.tick(script.number()?, tick_through),
            13 => self.configure(script.wired()?),
            14 => self.answer(trace_duration(self.config, script.number()? as usize).map(Shown)),
            15 => self.check_within(script.wired()?, script.trace()?),
            code => self.test_call(code, script)?,
        }
        Some(())
    }

    // The calls that are for tests.
    fn test_call(&mut self, code: u32, script: &mut Script<'_>) -> Option<()> {
        match code {
            101 => self.checker = script.checker()?,
            102 => self.controller = script.controller()?,
            103 => self.line(Shown(self.checker)),
            104 => self.line(Shown(self.controller)),
            105 => self.tick_once(Controller::tick),
            106 => self.tick_once(tick_through),
            107 => self.count_anyway(script.trace()?),
            108 => self.advance(script.trace()?),
            _ => return None,
        }
        Some(())
    }

    // What cannot be written is left out.
    fn line<T: Display + Drop>(&self, text: T) {
        let _ = self.out.println(text);
    }

    // What is answered, or the refusal.
    fn answer<T: Display + Drop>(&self, answer: Result<T, Refusal>) {
        match answer {
            Ok(shown) => self.line(shown),
            Err(why) => self.line(why),
        }
    }

    // Tests the configuration, and starts afresh on it, accepted or not.
    fn configure(&mut self, config: Config) {
        self.line(format_args!("config {}", number(config.timing())));
        *self = Session::fresh(self.out, config);
    }

    // A breach, the refusal, or the line of what is accepted.
    fn verdict<T: Display + Drop>(&self, verdict: Result<Option<Breach>, Refusal>, accepted: T) {
        match verdict {
            Ok(None) => self.line(accepted),
            Ok(Some(breach)) => self.line(Shown(breach)),
            Err(why) => self.line(why),
        }
    }

    // Ends at the first step that does not pass.
    fn steps(&mut self, count: u32, word: u32) -> Result<Option<Breach>, Refusal> {
        for _ in 0..count {
            let stepped = self.checker.step(word);
            self.checker = stepped.checker;
            if let Some(breach) = stepped.verdict? {
                return Ok(Some(breach));
            }
        }
        Ok(None)
    }

    fn step(&mut self, count: u32, word: u32) {
        let verdict = self.steps(count, word);
        self.verdict(verdict, format_args!("pass {}", self.checker.clock));
    }

    fn check(&self, words: &[u32]) {
        let verdict = wordcheck::check(self.config, words);
        self.verdict(verdict, format_args!("accepted {}", words.len()));
    }

    fn check_within(&self, greatest: Config, words: &[u32]) {
        match check_within(self.config, greatest, words) {
            Ok(None) => self.line("always"),
            Ok(Some(BreachOn { sheet, breach })) => {
                self.line(format_args!("{} on{}", Shown(breach), Shown(sheet)));
            }
            Err(why) => self.line(why),
        }
    }

    fn count(&self, words: &[u32]) {
        match count_commands(self.config, words) {
            Ok(counts) => self.line(format_args!("counts {}", Shown(counts))),
            Err(uncounted) => self.line(uncounted.why),
        }
    }

    // The counts of a refused call too.
    fn count_anyway(&self, words: &[u32]) {
        let (number, counts) = match count_commands(self.config, words) {
            Ok(counts) => (0, counts),
            Err(Uncounted { why, counts }) => (why.number(), counts),
        };
        self.line(format_args!("counts {number} {}", Shown(counts)));
    }

    // An advance's answer, with the clock that the walk has reached.
    fn advanced(&self, moved: Moved) {
        match moved.progress {
            Ok(Progress::Passed) => self.line(format_args!("pass {}", moved.checker.clock)),
            Ok(Progress::InBreach(breach)) => self.line(Shown(breach)),
            Ok(Progress::End) => self.line("end"),
            Err(why) => self.line(why),
        }
    }

    fn advance(&mut self, words: &[u32]) {
        let moved = advance_through(words, self.checker);
        self.checker = moved.checker;
        self.advanced(moved);
    }

    // A fresh walk until it does not pass, at the latest behind its last word, and one advance more.
    fn walk(&self, words: &[u32]) {
        let mut reached = Checker::fresh(self.config);
        for _ in 0..=words.len() {
            let moved = advance_through(words, reached);
            reached = moved.checker;
            if moved.progress != Ok(Progress::Passed) {
                self.advanced(moved);
                break;
            }
        }
        self.advanced(advance_through(words, reached));
    }

    // By value, or by lending the controller.
    fn offer<F: Fn(Controller, Request) -> Offered>(&mut self, request: Request, by: F)
        requires { F.IsAlwaysCallable by }
    {
        let offered = by(self.controller, request);
        self.controller = offered.controller;
        self.answer(offered.answer.map(|()| "offered"));
    }

    // Ends at the first tick that is refused, and writes each word that is not DESL.
    fn ticks<F: Fn(Controller) -> Ticked>(&mut self, count: u32, by: F) -> Result<(), Refusal>
        requires { F.IsAlwaysCallable by }
    {
        for _ in 0..count {
            let clock = self.controller.clock;
            let ticked = by(self.controller);
            self.controller = ticked.controller;
            ticked.answer?;
            if ticked.word != DESL {
                self.line(format_args!("word {clock} {}", ticked.word));
            }
        }
        Ok(())
    }

    fn tick<F: Fn(Controller) -> Ticked>(&mut self, count: u32, by: F)
        requires { F.IsAlwaysCallable by }
    {
        match self.ticks(count, by) {
            Ok(()) => self.line(format_args!("clock {}", self.controller.clock)),
            Err(why) => self.line(why),
        }
    }

    // The word also of a refused tick.
    fn tick_once<F: Fn(Controller) -> Ticked>(&mut self, by: F)
        requires { F.IsAlwaysCallable by }
    {
        let ticked = by(self.controller);
        self.controller = ticked.controller;
        let number = number(ticked.answer);
        self.line(format_args!("tick {number} {}", ticked.word));
    }

    // The requests waiting, at most sixteen, whatever the count.
    fn waiting(&self) {
        let count = self.controller.count;
        self.line(format_args!("waiting {count}"));
        for request in self.controller.waiting.iter().take(count as usize) {
            self.line(format_args!("request {}", Shown(*request)));
        }
    }
}
