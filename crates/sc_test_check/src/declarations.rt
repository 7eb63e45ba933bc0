// Declarations, tags, linkage and definitions (ANSI 3.1.2, 3.5, 3.7).

/// A line for each: the text, and what the checker answers.
pub const DECLARATIONS: &str = "; => X5 1
int i; => taken
static int i; => taken
extern int i; => taken
typedef int T; => taken
auto int i; => X7 1
register int i; => X7 1
int@auto@i; => X7 3
auto struct s { int m; }; => X7 1
register enum { A }; => X7 1
static struct s { int m; }; => taken
typedef struct s { int m; }; => taken
void f(void) { auto int i; register int j; static int k; typedef int T; extern int l; } => taken
void f(register int a); => taken
void f(register int a) { } => taken
void f(auto int a); => X7 1
void f(static int a); => X7 1
void f(extern int a); => X7 1
void f(typedef int a); => X7 1
void f(int a,@static int b); => X7 2
void f(void) { int g(void); } => taken
void f(void) { extern int g(void); } => taken
void f(void) { typedef int g(void); } => taken
void f(void) { static int g(void); } => X7 1
void f(void) { auto int g(void); } => X7 1
void f(void) { register int g(void); } => X7 1
extern int f(void) { return 0; } => taken
static int f(void) { return 0; } => taken
auto int f(void) { return 0; } => X7 1
register int f(void) { return 0; } => X7 1
typedef int f(void) { return 0; } => X7 1
auto int f(void); => X7 1
int; => X7 1
const int; => X7 1
typedef int; => X7 1
typedef int T; T; => X7 1
struct { int m; }; => X7 1
struct s; => taken
struct s { int m; }; => taken
enum { A }; => taken
enum e { A }; => taken
void f(void) { int; } => X7 1
void f(void) { struct { int m; }; } => X7 1
void f(void) { struct s; } => taken
enum e; => X7 1
enum e x; => X7 1
enum e *p; => X7 1
enum e { A }; enum e x; => taken
enum e { A }; void f(void) { enum e x; } => taken
void f(void) { enum e { A }; } enum e x; => X7 1
const const int i; => taken
int const i; => taken
int const *const p; => taken
unsigned int a; int unsigned b; long int c; int long unsigned d; => taken
short unsigned int a; signed char b; char unsigned c; signed d; => taken
unsigned a; long b; short c; signed long int d; long signed int e; => taken
signed short a; short int signed b; unsigned short c; int signed d; => taken
int int i; => X7 1
short short i; => X7 1
unsigned unsigned i; => X7 1
unsigned signed i; => X7 1
short long i; => X7 1
short char i; => X7 1
long char i; => X7 1
char int i; => X7 1
void int i; => X7 1
unsigned void i; => X7 1
void void f(void); => X7 1
struct s { int m; } int x; => X7 1
int struct s { int m; } x; => X7 1
enum { A } int x; => X7 1
typedef int T; T int x; => X7 1
typedef int T; unsigned T; => X7 1
typedef int T; void f(void) { unsigned T; T = 1; } => taken
typedef int T; T x; T *p = &x; int *q = &x; => taken
typedef const int T; T x; int *p = &x; => X7 1
typedef int A[3]; A x; int b[sizeof x == 12 ? 1 : -1]; => taken
typedef int A[]; A x = { 1, 2 }, y = { 1 }; int b[sizeof x == 8 && sizeof y == 4 ? 1 : -1]; => taken
typedef int A[3]; const A x; int *p = x; => X7 1
typedef int A[3]; void f(const A x) { x[0] = 1; } => X7 1
typedef int *P; const P p; void f(void) { *p = 1; } => taken
typedef int *P; const P p; void f(void) { p = 0; } => X7 1
typedef int F(void); F f; int f(void) { return 0; } => taken
typedef int F(void); F f, *p = f; => taken
typedef int F(void); F f { return 0; } => X7 1
typedef int F(void); struct s { F m; }; => X7 1
typedef struct s S; struct s { S *next; }; S x = { &x }; => taken
int i; int i; => taken
int i, i; => taken
extern int i; int i; extern int i; => taken
int i = 1; int i; => taken
int i; int i = 1; extern int i; => taken
extern int i = 1; => taken
int i = 1; int i = 2; => X7 1
int i = 1; int i =@2; => X7 1
int i = 1;@int@i =@2; => X7 3
extern int i = 1; int i = 1; => X7 1
int i; char i; => X7 1
int i; long i; => X7 1
int i; const int i; => X7 1
int *p; int *const p; => X7 1
int *p; const int *p; => X7 1
char c; signed char c; => X7 1
char c; unsigned char c; => X7 1
int i; signed i; => taken
int i; enum e { A }; enum e i; => taken
int i; int i(void); => X7 1
int f(void); int f; => X7 1
int i;@char@i; => X7 3
int a[]; int a[3]; => taken
extern int a[]; extern int a[3]; => taken
extern int a[2]; extern int a[3]; => X7 1
int a[]; int a[3]; int a[2]; => X7 1
int a[3]; char a[3]; => X7 1
int f(int); int f(int a); => taken
int f(void); int f(); => taken
int f(); int f(void) { return 0; } => taken
int f(const int); int f(int a) { return a; } => taken
int f(int *); int f(int a[3]) { return *a; } => taken
int f(int (*)(void)); int f(int g(void)) { return g(); } => taken
int f(int); int f(char); => X7 1
int f(int); int f(int, int); => X7 1
int f(int); void f(int); => X7 1
int f(int *); int f(const int *); => X7 1
int f(); int f(int); => X7 1
int f(void); int f(int a) { return a; } => X7 1
struct s { int m; }; struct r { int m; }; struct s *f(void); struct r *f(void); => X7 1
struct s *f(void); struct s *f(void); => taken
int f(struct s *); int f(struct s *); => X7 1
struct s; int f(struct s *); int f(struct s *); => taken
int (*p)[]; int (*p)[3]; int b[sizeof *p == 12 ? 1 : -1]; => taken
int (*p)[3]; int (*p)[]; int b[sizeof *p == 12 ? 1 : -1]; => taken
int a[]; int a[3]; int b[sizeof a == 12 ? 1 : -1]; => taken
int a[3]; extern int a[]; int b[sizeof a == 12 ? 1 : -1]; => taken
typedef int T; typedef int T; => X7 1
typedef int T; int T; => X7 1
int i; typedef int i; => X7 1
typedef int T; void f(void) { typedef char T; T x; } => taken
enum { A }; int A; => X7 1
int A; enum { A }; => X7 1
enum { A, A }; => X7 1
enum { A }; enum { A }; => X7 1
enum { A }; typedef int A; => X7 1
enum { A }; int A(void); => X7 1
enum { A,@B,@A }; => X7 3
enum { A }; void f(void) { enum { A = 5 }; int a[A]; } => taken
enum { A }; void f(void) { int A; A = 1; } => taken
struct s { int m; }; struct s { int m; }; => X7 1
struct s { int m; };@struct s {@int m; }; => X7 2
struct s { int m; }; enum s { A }; => X7 1
struct s; enum s { A }; => X7 1
enum s { A }; struct s x; => X7 1
enum s { A }; struct s; => X7 1
struct s { int m; }; enum s x; => X7 1
enum e { A }; enum e { B }; => X7 1
struct s { int m; }; void f(void) { enum s { A }; } => taken
struct s { int m; int m; }; => X7 1
struct s { int m; char *m; }; => X7 1
struct s { int m,@m; }; => X7 2
struct s { int m; struct r { int m; } n; }; => taken
struct s { int s; } s; => taken
struct s { int m; }; int s; => taken
typedef int T; struct T { T T; } x; => taken
void f(int a, int a); => X7 1
void f(int a, int b,@char a); => X7 2
void f(int, int); => taken
void f(int a) { int a; } => X7 1
void f(int a) { typedef int a; } => X7 1
void f(int a) { enum { a }; } => X7 1
void f(int a) { extern int a; } => X7 1
void f(int a) { { int a; } } => taken
void f(int a) { struct a { int m; }; } => taken
void f(void) { int a; int a; } => X7 1
void f(void) { int a; char a; } => X7 1
void f(void) { static int a; static int a; } => X7 1
void f(void) { int a; extern int a; } => X7 1
void f(void) { extern int a; int a; } => X7 1
void f(void) { extern int a; extern int a; } => taken
void f(void) { int g(void); int g(void); } => taken
void f(void) { int g(void); int g; } => X7 1
void f(void) { typedef int T; typedef int T; } => X7 1
void f(void) { enum { A }; int A; } => X7 1
void f(void) { struct s { int m; }; struct s { int m; }; } => X7 1
void f(void) { int a; { int a; { int a; } } { int a; } } => taken
void f(void) { int f; f = 1; } => taken
void f(int f) { f = 1; } => taken
static int i; extern int i; => taken
static int i; static int i; => taken
static int i = 1; static int i; => taken
extern int i; static int i; => X7 1
int i; static int i; => X7 1
static int i; int i; => X7 1
static int f(void); int f(void) { return 0; } => taken
static int f(void); extern int f(void); => taken
int f(void); static int f(void) { return 0; } => X7 1
extern int f(void); static int f(void); => X7 1
static int i; void f(void) { extern int i; i = 1; } => taken
static int g(void); void f(void) { int g(void); g(); } => taken
void f(void) { extern int i; } static int i; => X7 1
void f(void) { int g(void); } static int g(void); => X7 1
void f(void) { extern int i; } int i; => taken
void f(void) { extern int i; } char i; => X7 1
void f(void) { extern int i; } void g(void) { extern char i; } => X7 1
void f(void) { int g(int); } int g(void); => X7 1
void f(void) { int g(int); } int g(int a) { return a; } => taken
int i; void f(void) { int i(void); } => X7 1
int i; void f(void) { extern char i; } => X7 1
int f(void) { return 0; } int f(void) { return 0; } => X7 1
int f(void) { return 0; }@int@f(void) {@return 0; } => X7 2
int f(void) { return 0; } int f(void); => taken
int f(void); int f(void); int f(void) { return 0; } => taken
int f(void) { return 0; } static int g(void) { return f(); } => taken
void f(void) { extern int i = 1; } => X7 1
typedef int T = 1; => X7 1
int f(void) = 0; => X7 1
void f(void) { int g(void) = 0; } => X7 1
void f(void) { typedef int T = 1; } => X7 1
typedef int T = und; => X6 1
int f(void)[3]; => X7 1
int f(void)(void); => X7 1
int (*f(void))(void); => taken
int (*f(void))[3]; => taken
int *f(void); => taken
const int f(void); => taken
int a[3](void); => X7 1
int (*a[3])(void); => taken
void a[3]; => X7 1
struct t; struct t a[3]; => X7 1
struct t; struct t *a[3]; => taken
int a[][]; => X7 1
int a[3][]; => X7 1
int a[][3]; => taken
int (*p)[]; => taken
int (*p)[][]; => X7 1
int@a@[0]; => X7 2
struct s { int m[3]; }; => taken
struct s { int m[]; }; => X7 1
struct s { void m; }; => X7 1
struct s { int m(void); }; => X7 1
struct s { int (*m)(void); }; => taken
struct s { struct s m; }; => X7 1
struct s { struct s *m; }; => taken
struct s { struct s m[2]; }; => X7 1
struct s { struct t *m; }; => taken
struct s { struct t m; }; => X7 1
struct s { int m;@void@n; }; => X7 3
struct s { const int m; }; struct s x; => taken
int a[]; => taken
static int a[]; => X7 1
static int a[]; static int a[3]; => taken
static int a[] = { 1 }; => taken
struct t x; struct t { int m; }; => taken
struct t x; => X7 1
static struct t x; struct t { int m; }; => taken
extern struct t x; => taken
extern int a[]; => taken
extern void v; => taken
void v; => X7 1
struct t@x;@int i; => X7 2
int i;@struct t@*p,@x;@int j; => X7 4
extern struct t x; void f(void) { &x; } => taken
extern struct t x; void f(void) { x; } => taken
extern int a[]; void f(void) { a[1] = 0; } => taken
void f(void) { int a[]; } => X7 1
void f(void) { static int a[]; } => X7 1
void f(void) { extern int a[]; } => taken
void f(void) { int a[] = { 1 }; a[0] = 2; } => taken
void f(void) { static int a[] = { 1, 2 }; } => taken
void f(void) { void v; } => X7 1
void f(void) { struct t x; } => X7 1
void f(void) { struct t x; struct t { int m; }; } => X7 1
void f(void) { struct t *x; struct t { int m; }; x->m = 1; } => taken
void f(void) { extern struct t x; } => taken
extern int a[]; void f(void) { extern int a[3]; sizeof a; } => taken
extern int a[]; void f(void) { extern int a[3]; } void g(void) { sizeof a; } => X7 1
int a[3]; void f(void) { extern int a[]; sizeof a; } => taken
int a[3]; void f(void) { extern int a[4]; } => X7 1
void f(struct t *a) { } => taken
void f(void a) { } => X7 1
void f(int) { } => X7 1
void f(int a, char) { } => X7 1
void f(int a,@char) { } => X7 2
int f(int a[]) { return a[0]; } => taken
int f(int a[3]) { a = 0; return 0; } => taken
int f(int a[][3]) { return a[1][2]; } => taken
int f(int a[3][]) { return 0; } => X7 1
int f(int a[0]) { return 0; } => X7 1
int f(int n, int a[n]) { return 0; } => X8 1
int f(int n, int a[sizeof n]) { return 0; } => taken
int f(const int a[]) { a = 0; return 0; } => taken
int f(const int a[]) { a[0] = 0; return 0; } => X7 1
int f(const int a) { a = 0; return 0; } => X7 1
int f(int g(void)) { g = 0; return 0; } => taken
void f(void a[]); => X7 1
int f { return 0; } => X7 1
int (*f)(void) { return 0; } => X7 1
int f[3] { return 0; } => X7 1
int (f)(void) { return 0; } => taken
int (*f(void))(void) { return 0; } => taken
int (*f(int a))(int b) { return a ? 0 : f(1); } => taken
int (*f(int a))(int b) { return b; } => X6 1
int *f(void) { return 0; } => taken
int i; void i(void) { } => X7 1
typedef int f; void f(void) { } => X7 1
enum { f }; void f(void) { } => X7 1
struct a { int m; } x; struct b { int m; } y; void f(void) { x = y; } => X7 1
struct { int m; } x; struct { int m; } y; void f(void) { x = y; } => X7 1
struct { int m; } x, y; void f(void) { x = y; } => taken
typedef struct { int m; } S; S x; S y; void f(void) { x = y; } => taken
struct s { int m; }; void f(void) { struct s { int n; }; struct s x; x.n = 1; } => taken
struct s { int m; }; void f(void) { struct s { int n; }; struct s x; x.m = 1; } => X7 1
struct s { int m; }; void f(void) { struct s; struct s *y; y->m = 1; } => X7 1
struct s { int m; }; void f(void) { struct s *y; y->m = 1; } => taken
int f(struct s *p); struct s { int m; }; void g(struct s *y) { f(y); } => X7 1
struct s; int f(struct s *p); struct s { int m; }; void g(struct s *y) { f(y); } => taken
static int i; void f(void) { int i; { extern int i; i = 1; } } => taken
int f(int a, int (*g)(int a)); => taken
int f(int a, int (*g)(int a, char a)); => X7 1
int (*f(int a))(int a) { return 0; } => taken
int (*(*f(int a))(char b))[3] { return 0; } => taken
typedef int T; void f(T T) { T = 1; } => taken
typedef int T; void f(int (T)); => taken
typedef int T; void f(int (T)) { } => X7 1
typedef int T; void f(int T) { T = 1; } => taken
typedef int T; void f(void) { int T = 1; T = T + 1; } => taken
int f(int x) { return sizeof(int (*)[x ? 1 : 1]); } => X8 1
int f(int x) { return sizeof(int[sizeof x]); } => taken
int a[2], *p = a, i = 1; => taken
int i, f(int), *g(void), (*h)(int); => taken
extern int i, f(int); => taken
int i, i(void); => X7 1
struct s { int m; } x, *p = &x, f; => taken
struct s { struct s *p, *q[2]; } x; void f(void) { x.p = x.q[0]; x.q[1]->p->q[0] = 0; } => taken
struct a { struct b *p; }; struct b { struct a q; }; struct b x; void f(void) { x.q.p->q.p = &x; } => taken
struct a { struct b p; }; struct b { int m; }; => X7 1
enum e { A }; enum e; => taken";
