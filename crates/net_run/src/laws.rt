//! Laws of what becomes of packets. The functions do nothing; their contracts are the laws.
ghost use Rattle.std.specs.Prelude.{◌≡◌, ◌↔◌, ◌⊎◌, ◌+◌, List, ℕ};
ghost use Rattle.net_run.specs.Outcomes.{AreDelivered, AreTravelling, Delivery};
ghost use Rattle.net_run.specs.Travels.{GoesOn};
ghost use Rattle.p4_ir.specs.NetRuns.{Visits};
ghost use Rattle.p4_ir.specs.NetTree.{NetData};

/// What is delivered of a packet is one list.
pub fn one_delivered()
    ensures { (net : NetData) (a : ℕ) (bytes : List ℕ) (n : ℕ) (ds es : List Delivery)
        → AreDelivered net a bytes n ds → AreDelivered net a bytes n es → ds ≡ es }
{}

/// How many of its copies travel is one number.
pub fn one_travelling()
    ensures { (net : NetData) (a : ℕ) (bytes : List ℕ) (n c d : ℕ)
        → AreTravelling net a bytes n c → AreTravelling net a bytes n d → c ≡ d }
{}

/// What more visits lead to a host is delivered within n, or travels n visits and goes on.
pub fn travellers_go_on()
    ensures { (net : NetData) (m n b : ℕ) (out : List ℕ) (s p : ℕ) (bytes rids : List ℕ)
        → Visits net (n + m) b out s p bytes rids
        ↔ (Visits net n b out s p bytes rids ⊎ GoesOn net n m b out s p bytes rids) }
{}
