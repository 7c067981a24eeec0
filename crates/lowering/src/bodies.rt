//! Lowering of bodies of switch roles, as functions on trees, and what it keeps: laws, each the contract of a function that
//! does nothing. The code that follows these functions stands in `lower_code`.

ghost use Rattle.std.specs.Prelude.{◌∷◌, ◌≡◌, ◌<◌, ◌≤◌, ◌^◌, ℕ, Bool, true, List, [], map, option_and_then, slice_get, Option, Some};
ghost use Rattle.cocoon_types.specs.Design.{widths_of};
ghost use Rattle.p4_ir.specs.P4Tree.{P4Stmt, Program, RowsFile, field_widths, program_layout};
ghost use Rattle.p4_ir.specs.Program.{block_of};
ghost use Rattle.cocoon_num.specs.Packets.{Packet, enter};
ghost use Rattle.cocoon_types.specs.Runs.{World};
ghost use Rattle.cocoon_types.specs.Taken.{run_all};
ghost use Rattle.p4_ir.specs.Switch.{Running, Outcome, State, p4_run_all, switch_go};
ghost use Rattle.cocoon_num.specs.Tree.{Block, Expr, FunctionDecl, HeaderDecl};
ghost use Rattle.cocoon_types.specs.Val.{Env, bound, value};
ghost use Rattle.cocoon_num.specs.Values.{Value, number};
ghost use Rattle.lowering.specs.Agrees.{AllMade, Filling, FunctionsFit, GroupTakesIn, Holds, Long, Reaches, ReadsAs, Takes, TakesIn, inner_context, run_list};
ghost use Rattle.lowering.specs.Ends.{Copies, Ends, FitsAll, Numbered, Sent, begun, ended};
ghost use Rattle.lowering.specs.Log.{FieldsAt, NumberedTo, Placed, tables_in, widths_in};
ghost use Rattle.lowering.specs.Lower.{Callees, Counts, Made, Variable, callees, lower_expr};
ghost use Rattle.lowering.specs.LowerBlock.{Site, in_block, lower_block};
ghost use Rattle.lowering.specs.LowerSites.{AllSettled, InSite, PortOnly, lower_sites};
ghost use Rattle.lowering.specs.Whole.{IsIngress, RoleFits, SwitchRole, ingress_place, role_env, role_lowered, shown, start_state};
ghost use Rattle.lowering.specs.Visit.{Forked, visit_all};

/// The code of an expression goes on to a state in which it has the expression's value.
pub fn expression_reaches()
    ensures { (at : Running) (fill : Filling) (headers : List HeaderDecl) (fs : List FunctionDecl)
        (port : List ℕ)
        → program_layout at.program ≡ map (λ (h : HeaderDecl). widths_of h.fields) headers
        → FunctionsFit headers fill.defs fs
        → (wanted : List ℕ → Bool) (e : Expr) (vars : List Variable) (env : Env) (packet : Packet)
        (n : Counts) (s : State) (v : Value)
        → 0 < n.field → Holds (λ x. wanted x ≡ true) n.field at s vars env
        → ReadsAs headers packet s.packet
        → Takes (TakesIn fs) (λ x. wanted x ≡ true) (inner_context headers fill.defs fs)
        env packet e
        → AllMade at fill (lower_expr (callees headers fs port) vars n e).made → Long at s
        → value (inner_context headers fill.defs fs) env packet e ≡ Some v
        → Reaches at n.field (lower_expr (callees headers fs port) vars n e).next.field
        (lower_expr (callees headers fs port) vars n e).code s
        (lower_expr (callees headers fs port) vars n e).expr v }
{}

/// The code of a block ends as the block's visit does.
pub fn body_ends()
    ensures { (at : Running) (fill : Filling) (headers : List HeaderDecl) (fs : List FunctionDecl)
        (port : List ℕ) (p : ℕ) → at.port ≡ Some p
        → program_layout at.program ≡ map (λ (h : HeaderDecl). widths_of h.fields) headers
        → FunctionsFit headers fill.defs fs
        → (wanted : List ℕ → Bool) (b : Block) (vars : List Variable) (env : Env) (packet : Packet)
        (n : Counts) (s : State)
        → 0 < n.field → Holds (λ x. wanted x ≡ true) n.field at s vars env
        → s.packet ≡ packet → s.verdict ≡ 0
        → FitsAll (TakesIn fs) (GroupTakesIn fs) (λ x. wanted x ≡ true)
        (inner_context headers fill.defs fs) b env packet
        → AllMade at fill (lower_block (callees headers fs port) vars n b).made → Long at s
        → Ends fill (inner_context headers fill.defs fs) (λ x. wanted x ≡ true) at n.field
        (lower_block (callees headers fs port) vars n b).next.field
        (lower_block (callees headers fs port) vars n b).vars
        (lower_block (callees headers fs port) vars n b).sites s
        (visit_all (inner_context headers fill.defs fs) b env packet)
        (run_list at (lower_block (callees headers fs port) vars n b).code s) }
{}

/// A copy ends as the block of the fork does, with the member as its variable.
pub fn copy_ends()
    ensures { (at out : Running) (fill : Filling) (headers : List HeaderDecl)
        (fs : List FunctionDecl) (port : List ℕ) → out.program ≡ at.program
        → program_layout out.program ≡ map (λ (h : HeaderDecl). widths_of h.fields) headers
        → FunctionsFit headers fill.defs fs
        → (n : Counts) (sites : List Site) (f : Forked) (env : Env) (packet : Packet)
        (r : Option Outcome) (e : Copies fill (inner_context headers fill.defs fs)
        (λ x. Unit {0}) at n.field sites f env packet r)
        → 0 < n.field → (k : ℕ) → Numbered k sites → AllSettled sites
        → (rid : ℕ) → out.rid ≡ Some rid → 1 ≤ f.width → f.width ≤ 64 → rid < 2 ^ f.width
        → FitsAll (TakesIn fs) (λ g ns. ⊥) (InSite e.site) (inner_context headers fill.defs fs)
        f.body (bound f.x (number f.width rid) env) packet
        → AllMade out fill (lower_sites (callees headers fs port) n sites).made
        → slice_get (field_widths out.program.meta) 0 ≡ Some 8
        → Sent (visit_all (inner_context headers fill.defs fs) f.body
        (bound f.x (number f.width rid) env) packet)
        (run_list out (lower_sites (callees headers fs port) n sites).code (begun e.after)) }
{}

/// What a fork's block uses is read alike in egress.
pub fn sites_settle()
    ensures { (c : Callees) (b : Block) (vars : List Variable) (n : Counts)
        → PortOnly c.port vars → AllSettled (lower_block c vars n b).sites }
{}

/// The run of a role's body, and of a fork's block, that takes its choices from a list ends as its
/// visit says.
pub fn runs_are_visits()
    ensures bodies { (fs : List FunctionDecl) (w : World) (b : Block) (env : Env) (packet : Packet)
        (cs : List ℕ)
        → FitsAll (TakesIn fs) (GroupTakesIn fs) (λ x. Unit {0}) w.context b env packet
        → run_all w b env packet cs ≡ ended w (visit_all w.context b env packet) cs }
    ensures copies { (fs : List FunctionDecl) (w : World) (b : Block) (env : Env) (packet : Packet)
        (cs : List ℕ)
        → FitsAll (TakesIn fs) (λ g ns. ⊥) (λ y. in_block y b ≡ true) w.context b env packet
        → run_all w b env packet cs ≡ ended w (visit_all w.context b env packet) cs }
{}

/// Meta fields, tables and forks are numbered one after another.
pub fn all_numbered()
    ensures placed { (headers : List HeaderDecl) (fs : List FunctionDecl) (port : List ℕ)
        (b : Block) (vars : List Variable) (n : Counts)
        → Placed n.field n.app (lower_block (callees headers fs port) vars n b).made
        (lower_block (callees headers fs port) vars n b).next.field
        (lower_block (callees headers fs port) vars n b).next.app }
    ensures forks { (headers : List HeaderDecl) (fs : List FunctionDecl) (port : List ℕ)
        (b : Block) (vars : List Variable) (n : Counts)
        → NumberedTo n.site (lower_block (callees headers fs port) vars n b).sites
        (lower_block (callees headers fs port) vars n b).next.site }
    ensures copies { (headers : List HeaderDecl) (fs : List FunctionDecl) (port : List ℕ)
        (sites : List Site) (n : Counts)
        → Placed n.field n.app (lower_sites (callees headers fs port) n sites).made
        (lower_sites (callees headers fs port) n sites).next.field
        (lower_sites (callees headers fs port) n sites).next.app }
    ensures fields { (a j b : ℕ) (ms : List Made)
        → Placed 1 a ms j b → FieldsAt (8 ∷ widths_in ms) ms }
{}

/// A block runs as the list of its statements.
pub fn lists_run()
    ensures { (at : Running) (xs : List P4Stmt) (s : State)
        → p4_run_all at (block_of xs) s ≡ run_list at xs s }
{}

/// Ingress ends as the visit of the role's body.
pub fn ingress_ends()
    ensures { (r : SwitchRole) (fill : Filling) (s : ℕ) (p : Program) (rows : RowsFile)
        → IsIngress r fill s p rows
        → (port : ℕ) (packet : Packet) → RoleFits r fill s port packet
        → Ends fill (inner_context r.headers fill.defs r.functions) (λ x. Unit {0})
        (ingress_place p rows port) 1 (role_lowered r s).next.field
        (role_lowered r s).vars (role_lowered r s).sites (start_state p packet)
        (visit_all (inner_context r.headers fill.defs r.functions) r.body
        (role_env r s port) packet)
        (p4_run_all (ingress_place p rows port) p.ingress.body (start_state p packet)) }
{}

/// A visit without choices gives what the body of the switch's role does.
pub fn visit_is_body()
    ensures { (r : SwitchRole) (fill : Filling) (s : ℕ) (p : Program) (rows : RowsFile)
        → IsIngress r fill s p rows → (tag port : ℕ) (bytes : List ℕ)
        → ((x : Packet × List ℕ) → enter (program_layout p) bytes ≡ Some x
        → RoleFits r fill s port x.0)
        → switch_go p rows tag port bytes [] ≡ option_and_then (λ x. shown (program_layout p)
        (visit_all (inner_context r.headers fill.defs r.functions) r.body
        (role_env r s port) x.0) x.1) (enter (program_layout p) bytes) }
{}
