//! The laws that the room of the grammar is the nesting of the table of openers.

ghost use Rattle.std.specs.Prelude.{◌≡◌, ◌≤◌, ◌<◌, ◌+◌, ℕ, true, List, All, Any, length};
ghost use Rattle.c_tree.specs.Tree.{Tree, Outer};
ghost use Rattle.c_grammar.specs.declared.nonterminal.Nonterminal.{Nonterminal};
ghost use Rattle.c_grammar.specs.Grammar.{Tokens, Reads};
ghost use Rattle.c_grammar.specs.Programs.{Derives, Viable};
ghost use Rattle.c_grammar.specs.Terminals.{lookahead};
ghost use Rattle.c_grammar.specs.Nesting.{nesting, is_opener, openers, program_openers};
ghost use Rattle.c_grammar.specs.Rooms.{Along, program_rooms};
ghost use Rattle.c_grammar.specs.BegunNesting.{viable_openers};
ghost use Rattle.c_grammar.specs.BegunRooms.{viable_rooms};

/// At each opener of a program the nesting there and the room after it make up the room at the
/// program's begin. A program has the same openers however it is derived, and it is derived with a
/// room exactly where its nesting is nowhere more: if it is, no token nests deeper, and if no
/// opener nests deeper, it is. Each opener is a token of a kind that the table names. After an
/// expression the room is less by those of its openers that are still open.
pub fn nesting_is_room()
    ensures used { (r : ℕ) (a : Tokens) (p : List Outer) (d : Derives r a p)
        → Along (λ o n. n + nesting (program_openers d) o.0 ≡ r)
        (program_openers d) (program_rooms d) }
    ensures one { (r s : ℕ) (a : Tokens) (p q : List Outer) (d : Derives r a p) (e : Derives s a q)
        → program_openers d ≡ program_openers e }
    ensures within { (r s : ℕ) (a : Tokens) (p q : List Outer) (d : Derives s a p) → Derives r a q
        → (c : Tokens) → nesting (program_openers d) c ≤ r }
    ensures enough { (r s : ℕ) (a : Tokens) (p : List Outer) (d : Derives s a p)
        → All (λ o. nesting (program_openers d) o.0 ≤ r) (program_openers d) → Derives r a p }
    ensures opens { (r : ℕ) (a : Tokens) (p : List Outer) (d : Derives r a p)
        → All (λ o. is_opener (lookahead o.0) ≡ true) (program_openers d) }
    ensures after { (N : Nonterminal) (r m : ℕ) (a b end : Tokens) (t : Tree)
        (d : Reads N r a m b t) (c : Tokens) → length end < length c → length c ≤ length b
        → nesting (openers d end) c + m ≡ r }
{}

/// The same for what begins a program: the nesting at each opener and the room after it make up the
/// room at the begin, no nesting passes that room, and what nests nowhere deeper than a room begins
/// a program with that room. So where tokens begin a program, but none with a room, one of their
/// openers nests deeper than that room. The nesting at a token is the same in every derivation of
/// what begins a program, however much of it, and it is that of the program.
pub fn viable_nesting_is_room()
    ensures used { (r : ℕ) (a b : Tokens) (d : Viable r a b)
        → Along (λ o n. n + nesting (viable_openers d) o.0 ≡ r)
        (viable_openers d) (viable_rooms d) }
    ensures within { (r : ℕ) (a b : Tokens) (d : Viable r a b) (c : Tokens)
        → nesting (viable_openers d) c ≤ r }
    ensures enough { (r s : ℕ) (a b : Tokens) (d : Viable s a b)
        → All (λ o. nesting (viable_openers d) o.0 ≤ r) (viable_openers d) → Viable r a b }
    ensures deeper { (r s : ℕ) (a b : Tokens) (d : Viable s a b) → (Viable r a b → ⊥)
        → Any (λ o. r < nesting (viable_openers d) o.0) (viable_openers d) }
    ensures one { (r s : ℕ) (a b e : Tokens) (d : Viable r a b) (f : Viable s a e) (c : Tokens)
        → length b < length c → length e < length c
        → nesting (viable_openers d) c ≡ nesting (viable_openers f) c }
    ensures program { (r s : ℕ) (a e : Tokens) (p : List Outer) (d : Derives r a p)
        (f : Viable s a e) (c : Tokens) → length e < length c
        → nesting (program_openers d) c ≡ nesting (viable_openers f) c }
{}
