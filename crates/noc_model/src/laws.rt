//! What holds of every plan and every run, over the definitions alone. Each law is the contract of a function that
//! does nothing.

ghost use Rattle.std.specs.Prelude.{◌≡◌, ◌<◌, ◌+◌, ◌+ℤ◌, ℕ, ℤ, pos, Bool, List, length, take, Some, false, All};
ghost use Rattle.std.specs.Prelude.{count_by};
ghost use Rattle.noc_model.specs.declared.Flit.{Flit};
ghost use Rattle.noc_model.specs.declared.Offer.{Offer};
ghost use Rattle.noc_model.specs.Plan.{Plan, tiles, hop};
ghost use Rattle.noc_model.specs.Sound.{IsSound};
ghost use Rattle.noc_model.specs.OwnPart.{HaveOwnPart};
ghost use Rattle.noc_model.specs.Place.{neighbour, is_wrap, owner};
ghost use Rattle.noc_model.specs.Run.{Input, start, run};
ghost use Rattle.noc_model.specs.Events.{events_from};
ghost use Rattle.noc_model.specs.Driver.{Driver, driven_events, driven_state, driven_inputs};
ghost use Rattle.noc_model.specs.Outs.{outs};
ghost use Rattle.noc_model.specs.Walk.{Stop, stop_at, next_stop, out_of, out_rank};
ghost use Rattle.noc_model.specs.Laws.{channel_sum};
ghost use Rattle.noc_model.specs.SoundState.{IsSoundState};
ghost use Rattle.noc_model.specs.Flits.{inside, entered, delivered, delivered_to};
ghost use Rattle.noc_model.specs.Packets.{AreWholePackets, sent_on, entered_by};
ghost use Rattle.noc_model.specs.Lone.{IsLoneWord, IsRoute, HasRoute, least_latency, most_latency, IsGot};

/// Credit conservation. On each channel of each link the credits, the flits on the link, those in the buffer at its
/// end, and 1 for a credit that is on its way back add up to the buffer's depth, in every state of every run. No buffer
/// holds more flits than its depth, each flit goes to a tile that hosts the domain, and a flit on a link came there in
/// a cycle that the domain owned.
pub fn channel_sum()
    ensures sum { (p : Plan) (d n port m w : ℕ) (inputs : List Input) → IsSound p → n < tiles p
        → neighbour p n port ≡ Some m
        → channel_sum p (run p d inputs) n port m w ≡ p.buffer }
    ensures states { (p : Plan) (d : ℕ) (inputs : List Input) → IsSound p → d < length p.domains
        → IsSoundState p d (pos (length inputs)) (run p d inputs) }
{}

/// The wave. Where a link is no wrap link, the domain that owns it owns the next link by the same port a hop later.
pub fn wave()
    ensures { (p : Plan) (n port m : ℕ) (t : ℤ) → IsSound p → neighbour p n port ≡ Some m → is_wrap p n port ≡ false
        → owner p m port (t +ℤ pos (hop p)) ≡ owner p n port t }
{}

/// Along every route from a local port the channel rank rises from each link to the next, so the channels can't
/// deadlock: the channel dependency graph is acyclic.
pub fn rank_rises()
    ensures { (p : Plan) (dest n k m : ℕ) (a b : Stop) → IsSound p → stop_at p dest n k ≡ Some a
        → next_stop p dest a ≡ Some b
        → neighbour p b.tile (out_of p dest b) ≡ Some m → out_rank p dest a < out_rank p dest b }
{}

/// Flit conservation. By every test of flits, so for each flit too, as many entered as were delivered and are still
/// in buffers, on links and in ejection places. No flit is delivered at another tile than the one that it names.
pub fn conservation()
    ensures counts { (p : Plan) (d : ℕ) (test : Flit → Bool) (inputs : List Input) → IsSound p → d < length p.domains
        → count_by test (entered p d 0 (start p) inputs)
        ≡ count_by test (delivered p d 0 (start p) inputs) + count_by test (inside p d (run p d inputs)) }
    ensures home { (p : Plan) (d : ℕ) (inputs : List Input) (n : ℕ) → IsSound p → d < length p.domains → n < tiles p
        → All (λ (f : Flit). f.dest ≡ n) (delivered_to p d 0 (start p) inputs n) }
{}

/// Whole packets. What passes on each channel of an output, what enters by each local channel, and what is delivered
/// at each tile is packets, one behind the other, of which the last may be cut off: a head stands in front and behind
/// each tail, nowhere else, and the flits of a packet name one tile.
pub fn whole_packets()
    ensures sent { (p : Plan) (d : ℕ) (inputs : List Input) (n port w : ℕ) → IsSound p → d < length p.domains
        → n < tiles p
        → AreWholePackets (sent_on p d 0 (start p) inputs n port w) }
    ensures entered { (p : Plan) (d : ℕ) (inputs : List Input) (n c : ℕ)
        → AreWholePackets (entered_by p d 0 (start p) inputs n c) }
    ensures delivered { (p : Plan) (d : ℕ) (inputs : List Input) (n : ℕ) → IsSound p → d < length p.domains
        → n < tiles p
        → AreWholePackets (delivered_to p d 0 (start p) inputs n) }
{}

/// The latency bound of a lone word. A domain's network is empty in cycle `t`, and tile `n` takes a packet of one word
/// then, for tile `dest`. Then its latency is at least 4 cycles and a hop for each link of its route. On top of that it
/// waits at most once for each dimension in which the tiles differ, and once for each wrap link of the route, each time
/// for the other slots. Up to the latest cycle that this allows no other word of the domain is taken, and `dest` hears.
/// It is so in the runs that a driver makes too, and each tile has a route to each.
pub fn lone_word()
    ensures route { (p : Plan) (n dest : ℕ) → IsSound p → n < tiles p → dest < tiles p → HasRoute p n dest }
    ensures got { (p : Plan) (d n dest t : ℕ) (inputs : List Input) (word : Offer) (way : List ℕ) → IsSound p
        → d < length p.domains → IsRoute p dest n way
        → IsLoneWord p d n dest t (t + most_latency p dest n way) word (run p d (take t inputs)) inputs
        (events_from p d 0 (start p) inputs)
        → IsGot d dest word.payload (t + least_latency p way) (t + most_latency p dest n way)
        (events_from p d 0 (start p) inputs) }
    ensures driven { (p : Plan) (d n dest t k : ℕ) (v : Driver) (states : ℕ → List ℕ) (word : Offer) (way : List ℕ)
        → IsSound p → d < length p.domains → IsRoute p dest n way
        → IsLoneWord p d n dest t (t + most_latency p dest n way) word (driven_state p d v t 0 (start p) states)
        (driven_inputs p d v k 0 (start p) states) (driven_events p d v k 0 (start p) states)
        → IsGot d dest word.payload (t + least_latency p way) (t + most_latency p dest n way)
        (driven_events p d v k 0 (start p) states) }
{}

/// Isolation of the plan. A domain's network reads nothing of a plan but the domain's own part: in two plans that have
/// the same own part of a domain the same inputs give the domain the same states, outputs and events.
pub fn own_part()
    ensures states { (p q : Plan) (d : ℕ) (inputs : List Input) → HaveOwnPart p q d → run p d inputs ≡ run q d inputs }
    ensures outputs { (p q : Plan) (d : ℕ) (inputs : ℕ → Input) → HaveOwnPart p q d
        → outs p d inputs ≡ outs q d inputs }
    ensures events { (p q : Plan) (d : ℕ) (inputs : List Input) → HaveOwnPart p q d
        → events_from p d 0 (start p) inputs ≡ events_from q d 0 (start q) inputs }
{}
