//! What each kind of step keeps, what a good world tells, and when a call may be committed. Nothing
//! here runs.

ghost use Rattle.its_steps.specs.Calls as calls;
ghost use Rattle.its_steps.specs.Endings as endings;
ghost use Rattle.its_steps.specs.Facts as facts;
ghost use Rattle.its_steps.specs.Laws as laws;
ghost use Rattle.its_steps.specs.States as states;
ghost use Rattle.its_steps.specs.Steps as steps;

/// The world before any step is good, where the first state is sound.
pub fn first_is_good()
    ensures { laws.FirstIsGood }
{}

/// Each step of a pass, or two of them in one, leads from a good world to a good world: it reads
/// the word; it tries a turn, and gets it or not; it takes a value out of its slot, puts it back,
/// and gives the turn back; it commits a call. What it holds may be in another order.
pub fn passes_keep()
    ensures load { laws.LoadKeeps }
    ensures try_part { laws.TryKeeps }
    ensures miss { laws.MissKeeps }
    ensures take_out { laws.TakeOutKeeps }
    ensures commit { laws.CommitKeeps }
    ensures put_home { laws.PutHomeKeeps }
    ensures release { laws.ReleaseKeeps }
    ensures take { laws.TakeKeeps }
    ensures give { laws.GiveKeeps }
    ensures bring { laws.BringKeeps }
{}

/// So do a pass that the root splits off or joins, and a note that is made or met.
pub fn splits_and_joins_keep()
    ensures split { laws.SplitKeeps }
    ensures join { laws.JoinKeeps }
    ensures note { laws.NoteKeeps }
    ensures meet { laws.MeetKeeps }
{}

/// Every event keeps the good world, whether or not it is allowed.
pub fn steps_keep()
    ensures { steps.StepsKeep }
{}

/// From every good world every schedule of events ends in a good world.
pub fn runs_keep()
    ensures { steps.RunsKeep }
{}

/// What a good world tells: a pass that has read the word as it is has seen the whole history;
/// numbers have a bound; a pass holds the parts whose turns have its number; the root knows of all
/// passes, and alone of the whole world.
pub fn worlds_tell()
    ensures reader { laws.ReaderHasSeen }
    ensures numbers { laws.NumbersAreBounded }
    ensures turns { laws.TurnsAreHeld }
    ensures root { laws.RootKnowsAll }
{}

/// What holds of every machine: a history leaves a state of it; each part has an index of its own,
/// and a slot at first; what is found in a shard stands in one of its ways; and each translator has
/// a stamp of its own in the word's.
pub fn machines_tell()
    ensures histories { facts.HistoriesStayInMachine }
    ensures below { facts.IndexesAreBelow }
    ensures apart { facts.IndexesAreApart }
    ensures slots { facts.FirstSlotsAreAll }
    ensures found { facts.FoundStandsThere }
    ensures one { facts.OneHasAllBits }
    ensures stamps { facts.StampsAreApart }
{}

/// A pass that holds the parts that a call reads or changes, or a cached translation in place of
/// the maps, may commit the call, whatever the other parts have.
pub fn holders_may_commit()
    ensures { laws.HoldersMayCommit }
{}

/// What may be committed in a state of the machine that has what is held may be committed, and
/// leaves what it leaves there. Where what is held is right in a state, the state has it.
pub fn states_may_commit()
    ensures state { states.StateMayCommit }
    ensures right { states.RightIsHad }
    ensures assembled { facts.AssembledHas }
{}

/// Which translations a call may end, in any state; two states that agree on its footprint end the
/// same, and the reply of a step tells what it ends. Where each translation that ends has left its
/// shard, all others go on.
pub fn endings_tell()
    ensures all { endings.EndingsAreAll }
    ensures alike { endings.EndingsAreAlike }
    ensures replies { endings.RepliesTellEndings }
    ensures dropped { endings.EndingsAreDropped }
{}

/// What the stamp and the shards are after a call, by what it ends: nothing, one pair, or all; and
/// where the stamp was the last one.
pub fn endings_and_stamps()
    ensures nothing { states.NothingEnds }
    ensures pair { states.PairEnds }
    ensures all { states.AllEnd }
    ensures last { states.AllEndAtLast }
{}

/// A call that writes no register of a translator and takes no command leaves where messages go as
/// it was, and the stamp may stay.
pub fn calm_calls_may_commit()
    ensures state { states.CalmInState }
    ensures steady { calls.CalmCallsAreSteady }
    ensures may { calls.CalmCallsMayCommit }
{}

/// What each call needs that a processor or the guest makes, and what it leaves there.
pub fn ports_may_commit()
    ensures take { calls.TakeMayCommit }
    ensures show { calls.ShowMayCommit }
    ensures best { calls.BestMayCommit }
    ensures claim { calls.ClaimMayCommit }
    ensures poke { calls.PokeMayCommit }
    ensures peek { calls.PeekMayCommit }
    ensures dma { calls.DmaMayCommit }
    ensures nothing { calls.NothingMayCommit }
    ensures copy { calls.CopyMayCommit }
    ensures conf { calls.ConfMayCommit }
    ensures reread { calls.RereadMayCommit }
    ensures turn_off { calls.TurnOffMayCommit }
    ensures gicr { calls.GicrMayCommit }
    ensures off { calls.WriteTurnsOff }
    ensures read { calls.ReadMayCommit }
    ensures write { calls.WriteMayCommit }
    ensures rise { calls.WriteMayRise }
    ensures save { calls.SaveMayCommit }
{}

/// What a signal needs that is found in the cache, or goes by the maps, and what it leaves there.
pub fn signals_may_commit()
    ensures hit { calls.HitMayCommit }
    ensures hit_off { calls.HitOffMayCommit }
    ensures fill { calls.FillMayCommit }
    ensures drop { calls.DropMayCommit }
    ensures off { calls.OffMayCommit }
{}
