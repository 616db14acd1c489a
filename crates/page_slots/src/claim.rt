ghost use Rattle.std.specs.Prelude.{◌≡◌, ◌<◌, ◌≤◌, ◌^◌, Some, IsTrue};
ghost use Rattle.atom_store.specs.Step.{place_in};
ghost use Rattle.space_map.specs.declared.spaces.TheConstants.{LAST_WORKER};
ghost use Rattle.space_map.specs.PageWord.{IsEarlier, encode_page};
ghost use Rattle.space_map.specs.Spaces.{board_page};
ghost use Rattle.page_slots.specs.Claim.{begun, wanted, taken, told, left, advances, looked_at_place, looked_at_gate, first_stage};
ghost use Rattle.page_slots.specs.Soundness.{FitsClaimStage, IsClaimGoing};
ghost use Rattle.space_map.specs.GateWord.{decode_gate};
ghost use Rattle.space_map.specs.Table.{Page, place_of, table_length};

use crate::claim_stage::ClaimStage;
use crate::claimed::Claimed;
use atom_store::{Reply, Step, Turn};
use space_map::{GateWord, LAST_WORKER, PAGE_WORDS, PageWord, Spaces};
use std::marker::Model;

/// The claim of a page, to scan it, by one worker in one epoch.
#[derive(Clone, Copy)]
pub struct Claim {
    spaces: Spaces,
    page: u32,
    epoch: u32,
    worker: u8,
    found: PageWord,
    in_place: bool,
    stage: ClaimStage,
}

impl Model for Claim {
    ghost use Rattle.page_slots.specs.Claim.{Claiming};
    ghost use Rattle.page_slots.specs.Soundness.{IsSoundClaim};

    ghost Value = { Claiming };

    ghost view = { λ c. record { layout = c.spaces; page = c.page; epoch = c.epoch; worker = c.worker; found = c.found; in_place = c.in_place; stage = c.stage } };

    ghost invariant = { λ c. IsSoundClaim (record { layout = c.spaces; page = c.page; epoch = c.epoch; worker = c.worker; found = c.found; in_place = c.in_place; stage = c.stage }) };

    ghost inverse = { λ c. record { spaces = c.layout; page = c.page; epoch = c.epoch; worker = c.worker; found = c.found; in_place = c.in_place; stage = c.stage } };
}

impl Claim {
    /// The claim of a page whose word was read and says this, as the filling page or not.
    pub fn new(
        spaces: Spaces,
        page: u32,
        epoch: u32,
        worker: u8,
        found: PageWord,
        in_place: bool,
    ) -> Claim
        requires page { page ≤ board_page spaces.pages }
        requires worker { worker ≤ LAST_WORKER }
        requires not_later { IsEarlier found epoch }
        ensures { result ≡ begun spaces page epoch worker found in_place }
    {
        spaces.known();
        let stage = if in_place {
            ClaimStage::Exchanges
        } else if page == spaces.board_page() {
            ClaimStage::LooksAtGate
        } else {
            ClaimStage::LooksAtPlace(0)
        };
        Claim {
            spaces,
            page,
            epoch,
            worker,
            found,
            in_place,
            stage,
        }
    }

    pub fn page(&self) -> u32
        ensures { result ≡ self.now.page }
    {
        self.page
    }

    /// Whether the page is claimed as the filling one.
    pub fn is_in_place(&self) -> bool
        ensures { result ≡ self.now.in_place }
    {
        self.in_place
    }

    /// The next step.
    #[inline(always)]
    pub fn want(&self) -> Step
        requires { IsClaimGoing self.now.stage }
        ensures wanted { wanted self.now ≡ Some result }
        ensures in_table { place_in result < table_length self.now.layout.pages }
    {
        let spaces = self.spaces;
        match self.stage {
            ClaimStage::LooksAtPlace(worker) => Step::Load(spaces.announce_place(worker)),
            ClaimStage::LooksAtGate => Step::Load(spaces.gate_place()),
            ClaimStage::Exchanges => Step::Exchange(
                self.page_place(),
                self.found.pack(),
                self.own_word(),
            ),
            ClaimStage::Ended(_) => unreachable!(),
        }
    }

    fn page_place(&self) -> usize
        ensures place { result ≡ place_of self.now.layout.pages (Page self.now.page) }
        ensures in_table { result < table_length self.now.layout.pages }
    {
        self.spaces.page_place(self.page)
    }

    /// The page's word, once it is claimed.
    fn own_word(&self) -> u64
        ensures { result ≡ encode_page (PageWord.Scanning self.now.epoch self.now.worker) }
    {
        PageWord::Scanning(self.epoch, self.worker).pack()
    }

    /// Takes the reply to it.
    #[inline(always)]
    pub fn take(&mut self, reply: Reply) -> Turn<Claimed>
        requires { IsClaimGoing self.old.stage }
        ensures state { self.new ≡ taken self.old reply }
        ensures tells { result ≡ told self.new }
        ensures lowers { IsTrue (advances self.old reply) → left self.new < left self.old }
    {
        match (self.stage, reply) {
            (ClaimStage::LooksAtPlace(worker), Reply::Value(word)) => {
                self.look_at_place(worker, word)
            }
            (ClaimStage::LooksAtGate, Reply::Value(word)) => self.look_at_gate(word),
            (ClaimStage::Exchanges, Reply::Won) => self.end(Claimed::Won),
            (ClaimStage::Exchanges, Reply::Lost(word)) => self.end(Claimed::Taken(word)),
            _ => Turn::More,
        }
    }

    fn look_at_place(&mut self, worker: u8, announced: u64) -> Turn<Claimed>
        requires { FitsClaimStage self.old (ClaimStage.LooksAtPlace worker) }
        ensures state { self.new ≡ record self.old { stage = looked_at_place self.old.page worker announced } }
        ensures tells { result ≡ told self.new }
    {
        self.spaces.known();
        if announced > 0 && announced <= u64::from(PAGE_WORDS * (self.page + 1)) {
            return self.end(Claimed::Taken(announced));
        }
        self.stage = if worker == LAST_WORKER {
            ClaimStage::LooksAtGate
        } else {
            ClaimStage::LooksAtPlace(worker + 1)
        };
        Turn::More
    }

    #[inline(always)]
    fn look_at_gate(&mut self, word: u64) -> Turn<Claimed>
        ensures state { self.new ≡ record self.old { stage = looked_at_gate self.old.epoch word (decode_gate word) } }
        ensures tells { result ≡ told self.new }
    {
        match GateWord::read(word) {
            Some(gate) if gate.epoch == self.epoch => {
                self.stage = ClaimStage::Exchanges;
                Turn::More
            }
            Some(_) => self.end(Claimed::Taken(word)),
            None => {
                self.stage = ClaimStage::LooksAtGate;
                Turn::More
            }
        }
    }

    fn end(&mut self, outcome: Claimed) -> Turn<Claimed>
        ensures state { self.new ≡ record self.old { stage = ClaimStage.Ended outcome } }
        ensures tells { result ≡ told self.new }
    {
        self.stage = ClaimStage::Ended(outcome);
        Turn::Finished(outcome)
    }
}
