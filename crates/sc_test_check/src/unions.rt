// Unions (ANSI 3.5.2.1, 3.5.2.3, 3.5.7).

/// A line for each: the text, and what the checker answers.
pub const UNIONS: &str = "union u { int i; char b[4]; } x; => taken
union u { int i; } x, y; void f(void) { x = y; } => taken
union u { const int i; char c; } x, y; void f(void) { x = y; } => X7 1
union u { int i; char b[4]; } x; int *p = &x.i; char *q = x.b + 1; => taken
union u { int i; char c; } *x; int f(void) { x->c = 1; return x->i; } => taken
typedef union { int i; char c[4]; } U; U x; void f(void) { x.c[0] = 1; } => taken
union u { int i; } x; void f(void) { x.j = 1; } => X7 1
union u { int i; } x; void f(void) { if (x) ; } => X7 1
union u { int i; int i; }; => X7 1
union u { int f(void); }; => X7 1
union u { union u x; }; => X7 1
union u { union u *x; } x; void f(void) { x.x = &x; } => taken
union u *p; union u { int i; }; void f(void) { p->i = 1; } => taken
union u *p; void f(void) { p->i = 1; } => X7 1
union u x; => X7 1
union u; union u *p; => taken
union { int i; }; => X7 1
union u { int i; };@struct u { int i; }; => X7 2
struct u { int i; };@union u { int i; }; => X7 2
union u { int i; };@enum u { A }; => X7 2
enum u { A };@union u { int i; }; => X7 2
union u;@struct u; => X7 2
union u { int i; };@struct u *p; => X7 2
struct u { int i; };@void f(void) { union u *p; } => X7 2
struct u { int i; }; void f(void) { union u; union u *p; } => taken
struct u { int i; }; void f(void) { union u { int j; } x; x.j = 1; } => taken
union u { int i; } a; union v { int i; } b; void f(void) { a = b; } => X7 1
union u { int i; } *p; struct s { int i; } *q; void f(void) { p = q; } => X7 1
union u { int i; }; void f(union u x); => X9 structvalue 1
union u { int i; }; union u f(void); => X9 structvalue 1
union u { int i; }; void f(union u *x) { x->i = 1; } => taken
union { char a[1048575]; int i; } x; => taken
union { char a[1048576], b[1048576]; } x; => taken
union { char a[1048577]; int i; } x; => X10 size 1
union { int i, j; } x = { 1 }; => taken
union { int i, j; } x = { 1, 2 }; => X7 1
union { int i; } x = 1; => X7 1
union { int a[2]; char c; } x = { 1, 2 }; => taken
union { int a[2]; char c; } x = { { 1, 2 } }; => taken
union { int a[2]; char c; } x = { 1, 2, 3 }; => X7 1
union { int a[2]; char c; } x = { { 1, 2, 3 } }; => X7 1
union { char c; int *p; } x = { 0 }; => taken
union { char c; int *p; } x = { (char *)0 }; => X7 1
union { int i, j; } x[2] = { 1, 2 }; => taken
union { int i, j; } x[2] = { 1, 2, 3 }; => X7 1
struct s { union { int i; char c; } u; int n; } x = { { 1 }, 2 }; => taken
struct s { union { int i; char c; } u; int n; } x = { 1, 2 }; => taken
struct s { union { int i; char c; } u; int n; } x = { 1, 2, 3 }; => X7 1
union u { int i; } y; void f(void) { union u x = y; } => taken
union u { char c[2]; int i; }; void f(void) { union u x = { { 1 } }; } => taken
struct s { const int a[2]; }; void f(struct s *p, struct s *q, int c) { (0, (c ? *p : *q).a); } => taken";
